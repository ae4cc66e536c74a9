//! The input of a live session as a document without batches.

ghost use Rattle.std.specs.Prelude.{◌≡◌, ◌++◌, ◌∷◌, [], OnOk, codes};
ghost use Rattle.bsp_text.specs.Lines.{numbered};
ghost use Rattle.bsp_text.specs.DocumentText.{array_text, comma, document_block, entry};

use crate::lines::push_line;
use bsp_model::{Input, Memory, OutOfMemory, Seq};
use itoa::Buffer;

/// A value that stands in a document at a key, or in an array.
trait Written {
    ghost use Rattle.std.specs.Prelude.{ℕ, List};

    // The text of a value.
    ghost written: { Self → List ℕ };

    fn push_to(&self, text: &mut Vec<u8>) -> Result<(), OutOfMemory>
        ensures { OnOk result (text.new.items ≡ text.old.items ++ written self.now) };
}

impl Written for u64 {
    ghost use Rattle.std.specs.Prelude.{decimal};

    ghost written = { decimal };

    fn push_to(&self, text: &mut Vec<u8>) -> Result<(), OutOfMemory> {
        let mut buffer = Buffer::new();
        text.extend_from_slice(buffer.format(*self).as_bytes())
    }
}

impl Written for Memory {
    ghost use Rattle.bsp_text.specs.DocumentText.{words_text};

    ghost written = { words_text };

    fn push_to(&self, text: &mut Vec<u8>) -> Result<(), OutOfMemory> {
        let mut words = Vec::from_elem(*text.allocator(), 0, self.len())?;
        self.read(0, words.as_mut_slice());
        push_array(text, words.as_slice())
    }
}

impl<T: Written> Written for Seq<T> {
    ghost use Rattle.bsp_text.specs.DocumentText.{array_text};

    ghost written = { array_text T.written };

    fn push_to(&self, text: &mut Vec<u8>) -> Result<(), OutOfMemory> {
        push_array(text, self.as_slice())
    }
}

/// What stands before the item of this number of an array.
fn comma(number: usize) -> &'static [u8]
    ensures { result.now ≡ comma number }
{
    if number == 0 { b"" } else { b", " }
}

fn push_array<T: Written>(text: &mut Vec<u8>, items: &[T]) -> Result<(), OutOfMemory>
    ensures { OnOk result (text.new.items ≡ text.old.items ++ array_text T.written items.now) }
{
    text.extend_from_slice(b"[")?;
    for (number, item) in items.iter().enumerate() {
        text.extend_from_slice(comma(number))?;
        item.push_to(text)?;
    }
    text.extend_from_slice(b"]")
}

fn push_key<T: Written>(text: &mut Vec<u8>, key: &str, value: &T) -> Result<(), OutOfMemory>
    ensures { OnOk result (text.new.items ≡ text.old.items ++ (key.now ++ codes " = " ++ T.written value.now
        ++ 10 ∷ [])) }
{
    text.extend_from_slice(key.as_bytes())?;
    text.extend_from_slice(b" = ")?;
    value.push_to(text)?;
    text.extend_from_slice(b"\n")
}

/// Leaves nothing in a text but the document of an input, between the lines `document` and `end`. The keys that are the catalogue's own have this text.
#[tactic(auto, unfolding(crate::specs::DocumentText::document_text))]
pub fn put_document(text: &mut Vec<u8>, own: &[u8], input: &Input) -> Result<(), OutOfMemory>
    ensures { OnOk result (text.new.items ≡ document_block own.now input.now) }
{
    text.clear();
    text.extend_from_slice(b"document\n")?;
    push_line(text, "limit =", &[input.limit])?;
    push_line(text, "g =", &[input.g])?;
    push_line(text, "l =", &[input.l])?;
    push_key(text, "memory", &input.mems)?;
    push_key(text, "args", &input.args)?;
    text.extend_from_slice(own)?;
    text.extend_from_slice(b"end\n")
}
