ghost use Rattle.std.specs.Prelude.{◌≡◌, ◌<◌, ◌≤◌, ◌&&◌, ◌+◌, drop, length, codes};
ghost use Rattle.java_units.specs.Forms.{begins};
ghost use Rattle.java_bodies.specs.Kept.{keeps};
ghost use Rattle.java_bodies.specs.declared.mark.Brackets.TheVariants.{Blocks};
ghost use Rattle.java_units.specs.Signs.{seen};
ghost use Rattle.java_units.specs.Words.{texts};
ghost use Rattle.java_bodies.specs.Blocks.{block_words, header_words, follows, follows_header, may_begin_block, is_allowed_at, is_in_blocks};

use crate::body::Body;
use java_units::forms::{Lexeme, begins, begins_any, tail};

/// What may stand right before a block of statements, but for headers.
const BLOCKS: [&str; 8] = ["{", "}", ";", ":", "else", "do", "try", "finally"];

/// The words whose header may stand there.
const HEADERS: [&str; 7] = [
    "if",
    "while",
    "switch",
    "synchronized",
    "for",
    "catch",
    "try",
];

/// Whether one of these words stands right before the place.
#[tactic(auto, unfolding(crate::specs::Blocks::follows))]
pub fn follows(words: &[&str], lexemes: &[Lexeme<'_>], k: usize) -> bool
    ensures { result ≡ follows (texts words.now) (seen lexemes.now) k }
{
    if k == 0 {
        return false;
    }
    begins_any(words, tail(lexemes, k - 1))
}

/// Whether a bracketed header of one of these words stands right before the place.
#[tactic(auto, unfolding(crate::specs::Blocks::follows_header))]
fn follows_header(words: &[&str], body: &Body<'_, '_>, k: usize) -> bool
    requires { k ≤ length body.now.before }
    ensures { result ≡ follows_header (texts words.now) body.now.before k }
{
    if k == 0 {
        return false;
    }
    if !begins(")", tail(body.before(), k - 1)) {
        return false;
    }
    match body.opener(k - 1) {
        Some(opener) => follows(words, body.before(), opener),
        None => false,
    }
}

/// Whether a word stands right before the place that may stand before a block of statements.
fn follows_word(body: &Body<'_, '_>, k: usize) -> bool
    ensures { result ≡ follows block_words body.now.before k }
{
    follows(&BLOCKS, body.before(), k)
}

/// The same of a header.
fn follows_head(body: &Body<'_, '_>, k: usize) -> bool
    requires { k ≤ length body.now.before }
    ensures { result ≡ follows_header header_words body.now.before k }
{
    follows_header(&HEADERS, body, k)
}

/// Whether a block of statements may begin at the place.
#[tactic(auto, unfolding(crate::specs::Blocks::may_begin_block))]
fn may_begin_block(body: &Body<'_, '_>, k: usize) -> bool
    requires { k ≤ length body.now.before }
    ensures { result ≡ may_begin_block body.now.before k }
{
    if k == 0 {
        return true;
    }
    follows_word(body, k) || follows_head(body, k)
}

/// Whether a brace at the place is open up to the hole.
#[tactic(auto, using(crate::proofs::Lengths::lengths))]
fn is_open_brace(body: &Body<'_, '_>, k: usize) -> bool
    requires { k < length body.now.before }
    ensures { result ≡ (begins (codes "{") (drop k body.now.before) && keeps Blocks (drop (k + 1) body.now.before)) }
{
    begins("{", tail(body.before(), k)) && body.keeps_blocks(k + 1)
}

/// Whether such a brace begins a block of statements.
#[tactic(auto, unfolding(crate::specs::Blocks::is_allowed_at))]
fn is_allowed_at(body: &Body<'_, '_>, k: usize) -> bool
    requires { k < length body.now.before }
    ensures { result ≡ is_allowed_at body.now.before k }
{
    !is_open_brace(body, k) || may_begin_block(body, k)
}

/// Whether each brace that is open up to the hole begins a block of statements.
pub fn is_in_blocks(body: &Body<'_, '_>) -> bool
    ensures { result ≡ is_in_blocks body.now.before }
{
    for k in 0..body.before().len() {
        if !is_allowed_at(body, k) {
            return false;
        }
    }
    true
}
