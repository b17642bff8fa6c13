//! The parts of texts.
ghost use Rattle.std.specs.Prelude.{◌≡◌, ◌≢◌, List, None, Some, length, map, zip, All, IsTrue, IfOk};
ghost use Rattle.std.specs.List.{AllZip};
ghost use Rattle.kept_parts.specs.Words.{is_among, GroupTextData, MeansText, texts_of, IsMadeOf, AreCoded, texts_used};

use crate::uses::TextUses;
use analysis_cache::Kept;
use group_text::GroupText;
use std::alloc::{AllocError, Global};
use std::rc::Rc;
use straight_code::{Code, Part};

/// For each of these texts, which are kept, a part: the text's code over the nodes that its local nodes
/// stand for.
pub fn parts_of(
    alloc: Global,
    kept: &Kept,
    texts: &[GroupText],
    maps: Vec<Vec<usize>>,
) -> Result<Vec<Part>, AllocError>
    requires maps { length maps.items ≡ length texts.now }
    requires kept { All (λ text. IsTrue (is_among (texts_of kept.now) text)) texts.now }
    ensures { IfOk result (λ parts. AllZip (λ made part. IsMadeOf made.0 made.1 part) (zip texts.now (map (λ nodes. nodes.items) maps.items)) parts.items) }
{
    let mut parts = Vec::new(alloc);
    for map in maps {
        let text = &texts[parts.len()];
        parts.push(part_of(kept, text, map)?)?;
    }
    Ok(parts)
}

/// For each part that has a text by its number, which all have, a part: the text's code over these nodes. Each
/// text's code is looked up once, however many parts have it.
pub fn parts_by_number(
    alloc: Global,
    kept: &Kept,
    uses: &TextUses,
    maps: Vec<Vec<usize>>,
) -> Result<Vec<Part>, AllocError>
    requires maps { length maps.items ≡ length uses.now.numbers }
    requires numbered { All (λ number. number ≢ None) uses.now.numbers }
    requires kept { All (λ text. IsTrue (is_among (texts_of kept.now) text)) uses.now.known }
    ensures made { IfOk result (λ parts. (texts : List GroupTextData) → texts_used uses.now ≡ map Some texts →
        AllZip (λ made part. IsMadeOf made.0 made.1 part) (zip texts (map (λ nodes. nodes.items) maps.items)) parts.items) }
    ensures coded { IfOk result (λ parts. AreCoded uses.now.numbers parts.items) }
{
    let known = uses.known();
    let codes = codes_of(alloc, kept, known)?;
    let mut parts = Vec::new(alloc);
    for map in maps {
        let part = match uses.number_of(parts.len()) {
            Some(number) => part_with(&known[number], &codes[number], map)?,
            None => unreachable!(),
        };
        parts.push(part)?;
    }
    Ok(parts)
}

// The codes of these texts, which are kept.
fn codes_of(alloc: Global, kept: &Kept, texts: &[GroupText]) -> Result<Vec<Rc<Code>>, AllocError>
    requires { All (λ text. IsTrue (is_among (texts_of kept.now) text)) texts.now }
    ensures { IfOk result (λ codes. AllZip (λ text code. MeansText text code.value) texts.now codes.items) }
{
    let mut codes = Vec::with_capacity(alloc, texts.len())?;
    for text in texts {
        match kept.code(text) {
            Some(code) => codes.push(code.clone()?)?,
            None => unreachable!(),
        }
    }
    Ok(codes)
}

// The part with the code of a text that is kept, over these nodes.
fn part_of(kept: &Kept, text: &GroupText, map: Vec<usize>) -> Result<Part, AllocError>
    requires { IsTrue (is_among (texts_of kept.now) text.now) }
    ensures { IfOk result (IsMadeOf text.now map.items) }
{
    match kept.code(text) {
        Some(code) => part_with(text, code, map),
        None => unreachable!(),
    }
}

// The part of a text with this code, which means the text, over these nodes.
fn part_with(text: &GroupText, code: &Rc<Code>, map: Vec<usize>) -> Result<Part, AllocError>
    requires { MeansText text.now code.now.value }
    ensures made { IfOk result (IsMadeOf text.now map.items) }
    ensures code { IfOk result (λ part. part.code.value ≡ code.now.value) }
{
    Ok(Part {
        code: code.clone()?,
        map,
        members: text.members(),
    })
}
