//! The phrases of explanations.
ghost use Rattle.std.specs.Prelude.{◌≡◌};
ghost use Rattle.kat_pseudocode.specs.Phrases.{say};

/// A phrase of an explanation: a piece of a sentence or of pseudo-code, a sentence, or a title. [`say`] has their texts.
#[derive(Clone, Copy)]
pub enum Phrase {
    TheGreatest,
    WithIts,
    OfTwoAlike,
    JoinedBy,
    HowPartsJoin,
    OnceTrue,
    AlwaysTrue,
    AsAtFirst,
    AtFirst,
    AddedBy,
    ForEvery,
    SetOf,
    EmptyAtFirst,
    Deep,
    OwnSum,
    DoesNothing,
    GreaterOne,
    EachKey,
    EachReplica,
    KeyAndReplica,
    UnionOf,
    Returns,
    HasRank,
    OneElement,
    Elements,
    AtEvery,
    AnswersAlike,
    FieldOf,
    IsAtMost,
    OfLastRank,
    HasLastRank,
    IsAtLeast,
    IsElement,
    OfLastRankAnd,
    ItsElement,
    IsNotBelowZero,
    KeepsTitle,
    KeepsNothing,
    TupleOrder,
    DoesTitle,
    TimeAndReplica,
    MergesTitle,
    MergesNothing,
    AnswersTitle,
    OrderTitle,
    OrderOfRanks,
    RelationTitle,
    NoRelation,
    WhatIsClaimed,
    ProofTitle,
    ProofHas,
    ListsWith,
    LinesInAll,
    Accepted,
    RefusedAt,
    RefusedSince,
    DoesNotFit,
    PassedTitle,
    NamesNone,
    NamesThese,
}

/// What a phrase says.
#[tactic(auto, unfolding(crate::specs::Phrases::say))]
pub fn say(phrase: Phrase) -> &'static [u8]
    ensures { result.now ≡ say phrase }
{
    match phrase {
        Phrase::TheGreatest => b"the greatest `",
        Phrase::WithIts => b" with its `",
        Phrase::OfTwoAlike => b"`; of two alike the greater `",
        Phrase::JoinedBy => b"`, joined by `",
        Phrase::HowPartsJoin => {
            b"`: `lex` takes the greater first part, and joins the second parts of two alike; `pair` joins part by part"
        }
        Phrase::OnceTrue => b"true once an operation has made it true",
        Phrase::AlwaysTrue => b"always true",
        Phrase::AsAtFirst => b"`, what it is at first, always",
        Phrase::AtFirst => b". At first `",
        Phrase::AddedBy => b"replica r: what the operations of r have added. At first 0.\n",
        Phrase::ForEvery => b"`, for every ",
        Phrase::SetOf => b"`: a set of ",
        Phrase::EmptyAtFirst => b"s. At first empty.\n",
        Phrase::Deep => b"        ",
        Phrase::OwnSum => b"[replica] += ",
        Phrase::DoesNothing => b"        nothing\n",
        Phrase::GreaterOne => b"    # the one with the greater ",
        Phrase::EachKey => b"    for every ",
        Phrase::EachReplica => b"    for every replica r: ",
        Phrase::KeyAndReplica => b" k and replica r: ",
        Phrase::UnionOf => b" = union(",
        Phrase::Returns => b":\n        return ",
        Phrase::HasRank => b" has rank ",
        Phrase::OneElement => b"element ",
        Phrase::Elements => b"elements ",
        Phrase::AtEvery => b", for every ",
        Phrase::AnswersAlike => b"` answers as the type does.\n",
        Phrase::FieldOf => b"- The type's `",
        Phrase::IsAtMost => b"` is at most ",
        Phrase::OfLastRank => b" of the last rank",
        Phrase::HasLastRank => b"`, there is a last rank, and its element ",
        Phrase::IsAtLeast => b" is at least ",
        Phrase::IsElement => b"` is element ",
        Phrase::OfLastRankAnd => b" of the last rank, and `",
        Phrase::ItsElement => b"`, its element ",
        Phrase::IsNotBelowZero => b"` is at least 0",
        Phrase::KeepsTitle => b"What each replica keeps",
        Phrase::KeepsNothing => b"Nothing.\n",
        Phrase::TupleOrder => {
            b"\nTuples are compared from the left, names by their bytes, and false is less than true.\n"
        }
        Phrase::DoesTitle => b"What each operation does",
        Phrase::TimeAndReplica =>
            b"`time` and `replica` are those of the operation: `replica` the number of the replica that does it, which no other has, and `time` one past the greatest time that this replica has seen in its own operations and in states that it merged.\n\n",
        Phrase::MergesTitle => b"How two states are merged",
        Phrase::MergesNothing => b"There is nothing to merge.\n",
        Phrase::AnswersTitle => b"How each query is answered",
        Phrase::OrderTitle => b"In which order operations count",
        Phrase::OrderOfRanks => {
            b"Those with smaller ranks count first, wherever and whenever they were done; those of equal rank may stand in any order.\n\n"
        }
        Phrase::RelationTitle => b"The relation",
        Phrase::NoRelation => b"The file has none.\n",
        Phrase::WhatIsClaimed => {
            b"What the file claims of a replica's state and that of the type after the same operations. The last rank is that of the operation that counts last; what is said of it is claimed where there was an operation, but for the sentences that say that there is one. A truth value counts there as 0 or 1.\n\n"
        }
        Phrase::ProofTitle => b"The proof",
        Phrase::ProofHas => b"The proof has ",
        Phrase::ListsWith => b" lists of lines, with ",
        Phrase::LinesInAll => b" lines in all. Checked for this type: ",
        Phrase::Accepted => b"accepted.\n",
        Phrase::RefusedAt => b"refused at condition ",
        Phrase::RefusedSince => b"refused, since conjunct ",
        Phrase::DoesNotFit => b" doesn't fit.\n",
        Phrase::PassedTitle => b"Designs passed over",
        Phrase::NamesNone => {
            b"The file names none. Only `synth` names those that it could neither refute nor prove; files of `find`, `prove` and `migrate` name none in any case.\n"
        }
        Phrase::NamesThese => {
            b"The file names these before it, by their numbers in the listing, as neither refuted nor proved: "
        }
    }
}
