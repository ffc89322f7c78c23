//! The design that a token list stands for, and the test whether a token list is that of a listed design.
ghost use Rattle.std.specs.Prelude.{◌≡◌, ◌==◌, IfOk};
ghost use Rattle.kat_design.specs.Designs.{design_form};
ghost use Rattle.kat_design.specs.Sizes.{size_of};
ghost use Rattle.kat_decoding.specs.Decoded.{decoded, is_listed_word};
ghost use Rattle.kat_rules.specs.Tests.{is_word_of};

use crate::asks::decode_asks;
use crate::parts::decode_components;
use kat_design::{Design, size};
use kat_num::Items;
use kat_rules::{Setting, Token, design_tokens, is_same_list, keeps_rules, total_cost};
use std::alloc::{AllocError, Global};

/// The design that a list of tokens stands for.
pub fn decode(alloc: Global, setting: &Setting, tokens: &[Token]) -> Result<Design, AllocError>
    ensures { IfOk result (λ design. design_form design ≡ decoded setting.now tokens.now) }
{
    let components = decode_components(alloc, &setting.constants, tokens)?;
    let asks = decode_asks(alloc, &setting.constants, tokens)?;
    Ok(Design {
        sig: setting.sig.copy(alloc)?,
        components: Items::from_vec(components),
        asks: Items::from_vec(asks),
    })
}

/// Whether a design has the size.
fn has_size(design: &Design, wanted: u16) -> bool
    ensures { result ≡ (size_of (design_form design.now) == wanted) }
{
    size(design) == u32::from(wanted)
}

/// Whether the list is that of the design, which has the size and keeps the rules of a listing.
fn is_word_of(
    alloc: Global,
    setting: &Setting,
    wanted: u16,
    tokens: &[Token],
    design: &Design,
) -> Result<bool, AllocError>
    ensures { IfOk result (λ b. b ≡ is_word_of setting.now wanted tokens.now (design_form design.now)) }
{
    if !has_size(design, wanted) {
        return Ok(false);
    }
    let printed = design_tokens(alloc, &setting.constants, design)?;
    if !is_same_list(&printed, tokens) {
        return Ok(false);
    }
    keeps_rules(alloc, setting, design)
}

/// Whether the list is that of a design of this size that keeps the rules of a listing. What its tokens count comes first, since no
/// design has to be made for that.
#[tactic(auto, using(crate::proofs::Sized::unlisted))]
pub(crate) fn is_listed_word(
    alloc: Global,
    setting: &Setting,
    wanted: u16,
    tokens: &[Token],
) -> Result<bool, AllocError>
    ensures { IfOk result (λ b. b ≡ is_listed_word setting.now wanted tokens.now) }
{
    if total_cost(tokens) != u128::from(wanted) {
        return Ok(false);
    }
    let design = decode(alloc, setting, tokens)?;
    is_word_of(alloc, setting, wanted, tokens, &design)
}
