// Where the terms of a problem end.
ghost use Rattle.std.specs.Prelude.{◌≡◌, ◌+◌, ◌^◌, ◌<◌, ◌≤◌, length, slice_index};
ghost use Rattle.syntax.specs.Tables.{declared_in};
ghost use Rattle.ends.specs.Ends.{Ends, head_of, parts_of, hop, hops, end_at, ends_of};

use reading::parts::Tag;
use syntax::tables::Signature;

// The bytes before the first part of a term.
fn head(tag: Tag) -> usize
    ensures { (result ≡ head_of tag) × (result ≤ 3) }
{
    match tag {
        Tag::Constructor => 3,
        Tag::Variable | Tag::Unknown | Tag::Call | Tag::Case | Tag::Equal => 2,
        Tag::And | Tag::Not | Tag::Other => 1,
    }
}

// How many parts a term has whose first bytes are this tag, a and b.
fn parts(sig: Signature, tag: Tag, a: u8, b: u8) -> usize
    ensures { result ≡ parts_of (declared_in sig.entry) tag a b }
{
    match tag {
        Tag::Constructor => sig.arguments(a, b).len(),
        Tag::Call => sig.params(a).len(),
        Tag::Case => 1 + usize::from(sig.case_count(a)),
        Tag::And | Tag::Equal => 2,
        Tag::Not => 1,
        Tag::Variable | Tag::Unknown | Tag::Other => 0,
    }
}

// The byte at i; 0 past the end.
fn at(bytes: &[u8], i: usize) -> u8
    ensures { result ≡ slice_index bytes.now i }
{
    bytes.get(i).copied().unwrap_or(0)
}

// The place after the term at q.
fn past_one(next: &[u16], q: usize) -> usize
    ensures { result ≡ hop next.now q }
{
    next.get(q).map_or(q, |end| usize::from(*end))
}

// The place after n terms of which the first stands at q, one after another.
pub fn past(next: &[u16], q: usize, n: usize) -> usize
    ensures { result ≡ hops next.now n q }
{
    (0..n).fold(q, |place, _| past_one(next, place))
}

// The place after the term at p, from where its parts end.
fn end_of(bytes: &[u8], sig: Signature, next: &[u16], p: usize) -> usize
    requires { (p < length bytes.now) × (length bytes.now < 2 ^ 16) }
    ensures { result ≡ end_at (declared_in sig.entry) bytes.now next.now p }
{
    let tag = Tag::from(at(bytes, p));
    past(
        next,
        p + head(tag),
        parts(sig, tag, at(bytes, p + 1), at(bytes, p + 2)),
    )
}

// Writes, for each place where a typed term stands, the place after it. The last places come first, since the parts of a term
// stand after its head; so the table is right wherever a term stands, and no check has to come before it.
pub fn fill_ends(bytes: &[u8], sig: Signature, next: &mut [u16])
    requires few { length bytes.now < 2 ^ 16 }
    requires long { length next.old ≡ length bytes.now }
    ensures exact { next.new ≡ ends_of (declared_in sig.entry) bytes.now }
    ensures ends { Ends (declared_in sig.entry) bytes.now next.new 0 }
{
    // Kept as it is: each place is written from the entries behind it, so that the table is read and written by place.
    for p in (0..bytes.len()).rev() {
        let end = end_of(bytes, sig, next, p);
        next[p] = end.min(bytes.len()) as u16;
    }
}
