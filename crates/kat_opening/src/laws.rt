//! What holds of designs that are open: each law is a call that does nothing, whose clauses say it.
ghost use Rattle.kat_opening.specs.Openings.{CandidatesHaveNoProof, OpenDesignsHaveNoFile, OpenDesignsHaveNoProof, SmallerRelationsFail};

/// A condition that fails at a point under some conjuncts fails under fewer too: no lines refute it under a relation that
/// consists of these conjuncts, in whatever order and however often.
pub fn smaller_relations_fail()
    ensures { SmallerRelationsFail }
{}

/// A design with an open certificate has no accepted file: no relation that consists of the candidates, in whatever order
/// and however often, has lines that refute each of its conditions. The second clause says it of every relation of
/// candidates, if the certificate is over the candidates of the type and the design, and the third of whole files.
pub fn open_designs_have_no_proof()
    ensures listed { OpenDesignsHaveNoProof }
    ensures candidates { CandidatesHaveNoProof }
    ensures files { OpenDesignsHaveNoFile }
{}
