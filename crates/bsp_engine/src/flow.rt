//! Where bytes come from and go to, and how often that failed: a whole document is read, and a whole text is written.

ghost use Rattle.std.specs.Prelude.{◌≡◌, ◌<◌, ◌≤◌, ◌+◌, ◌-◌, ◌^◌, ℕ, List, Option, length, take, IfOk, OnOk, OnErr, ◌≢◌, IfErr, IfSome, Ok, Err, true, false};
ghost use Rattle.std.specs.Io.KnownBytes.{Consumes, Appends, Keeps, IsAtEnd};
ghost use Rattle.bsp_engine.specs.Flow.{TakesAtMost, AppendsPrefix};
ghost use Rattle.bsp_engine.specs.Inside.Flow.{Gains};
ghost use Rattle.bsp_engine.specs.Inside.Refusal.{IsUnread};
ghost use Rattle.bsp_model.specs.Limits.{most_document_bytes};

use crate::errors::EngineError;
use bsp_model::limits::MOST_DOCUMENT_BYTES;
use thiserror::Error;

/// A read or a write failed.
#[derive(Clone, Copy, Debug, PartialEq, Eq, Error)]
#[error("a read or a write failed")]
pub struct Failed;

/// Where bytes come from.
pub trait Source {
    // The bytes that are left, where they are known.
    ghost remaining: { Self → Option (List ℕ) };

    // How many reads failed.
    ghost failures: { Self → ℕ };

    /// Takes bytes from the front of those that are left, and puts them at the front of `buf`: as many as it answers.
    /// 0 is the answer only at the end, or where `buf` is empty. After `Failed` no byte was taken.
    fn read(&mut self, buf: &mut [u8]) -> Result<usize, Failed>
        requires { failures self.old < 2 ^ 64 - 1 }
        ensures bound { IfOk result (λ n. n ≤ length buf.new) }
        ensures bytes { IfOk result (λ n. Consumes (remaining self.old) (remaining self.new) (take n buf.new)) }
        ensures end { IfOk result (λ n. n ≡ 0 → 0 < length buf.new → IsAtEnd (remaining self.new)) }
        ensures kept { OnErr result (Keeps (remaining self.old) (remaining self.new)) }
        ensures ok { OnOk result (failures self.new ≡ failures self.old) }
        ensures failed { OnErr result (failures self.new ≡ failures self.old + 1) };
}

/// Where bytes go to.
pub trait Sink {
    // The bytes that went out, where they are known.
    ghost contents: { Self → Option (List ℕ) };

    // How many writes failed, or took no byte of a slice that was not empty.
    ghost failures: { Self → ℕ };

    /// Appends bytes from the front of `buf`: as many as it answers. After `Failed` no byte went out.
    fn write(&mut self, buf: &[u8]) -> Result<usize, Failed>
        requires { failures self.old < 2 ^ 64 - 1 }
        ensures bound { IfOk result (λ n. n ≤ length buf.now) }
        ensures bytes { IfOk result (λ n. Appends (contents self.old) (contents self.new) (take n buf.now)) }
        ensures kept { OnErr result (Keeps (contents self.old) (contents self.new)) }
        ensures some { IfOk result (λ n. 0 < n → failures self.new ≡ failures self.old) }
        ensures none { IfOk result (λ n. n ≡ 0 → 0 < length buf.now → failures self.new ≡ failures self.old + 1) }
        ensures empty { IfOk result (λ n. length buf.now ≡ 0 → failures self.new ≡ failures self.old) }
        ensures failed { OnErr result (failures self.new ≡ failures self.old + 1) };
}

const CHUNK: usize = 4096;

/// One read, whose bytes go to the end of those before. True where no byte is left.
fn read_some<S: Source>(source: &mut S, bytes: &mut Vec<u8>) -> Result<bool, EngineError>
    requires failures { S.failures source.old < 2 ^ 64 - 1 }
    requires room { length bytes.old.items ≤ most_document_bytes }
    ensures read { OnOk result (Gains (S.remaining source.old)
        (S.remaining source.new) bytes.old.items bytes.new.items) }
    ensures taken { TakesAtMost (most_document_bytes + 1 - length bytes.old.items) (S.remaining source.old)
        (S.remaining source.new) }
    ensures within { OnOk result (length bytes.new.items ≤ most_document_bytes + 1) }
    ensures more { result ≡ Ok false → length bytes.old.items < length bytes.new.items }
    ensures end { result ≡ Ok true → (IsAtEnd (S.remaining source.new)) × (bytes.new.items ≡ bytes.old.items) }
    ensures failed { result ≡ Err EngineError.Read → S.failures source.new ≡ S.failures source.old + 1 }
    ensures calm { result ≢ Err EngineError.Read → S.failures source.new ≡ S.failures source.old }
    ensures short { result ≢ Err EngineError.TooLong }
    ensures unread { IfErr result IsUnread }
{
    let mut chunk = [0u8; CHUNK];
    let most = CHUNK.min(MOST_DOCUMENT_BYTES + 1 - bytes.len());
    let Ok(n) = source.read(&mut chunk[..most]) else {
        return Err(EngineError::Read);
    };
    match bytes.extend_from_slice(&chunk[..n]) {
        Ok(()) => Ok(n == 0),
        Err(_) => Err(EngineError::OutOfMemory),
    }
}

/// Makes all bytes of the source the bytes of a document, of which there are at most `MOST_DOCUMENT_BYTES`. At most one more is ever taken.
pub fn read_all<S: Source>(source: &mut S, document: &mut Vec<u8>) -> Result<(), EngineError>
    requires { S.failures source.old < 2 ^ 64 - 1 }
    ensures all { OnOk result (IfSome (S.remaining source.old) (λ bytes. document.new.items ≡ bytes)) }
    ensures end { OnOk result (IsAtEnd (S.remaining source.new)) }
    ensures fits { OnOk result (length document.new.items ≤ most_document_bytes) }
    ensures taken { TakesAtMost (most_document_bytes + 1) (S.remaining source.old) (S.remaining source.new) }
    ensures long { result ≡ Err EngineError.TooLong → IfSome (S.remaining source.old) (λ bytes. most_document_bytes
        < length bytes) }
    ensures failed { result ≡ Err EngineError.Read → S.failures source.new ≡ S.failures source.old + 1 }
    ensures calm { result ≢ Err EngineError.Read → S.failures source.new ≡ S.failures source.old }
    ensures unread { IfErr result IsUnread }
{
    document.clear();
    while document.len() <= MOST_DOCUMENT_BYTES {
        if read_some(source, document)? {
            return Ok(());
        }
    }
    Err(EngineError::TooLong)
}

/// Writes all of the text. Where a write fails or takes no byte, a beginning of the text went out.
pub fn write_text<K: Sink>(sink: &mut K, text: &[u8]) -> Result<(), Failed>
    requires { K.failures sink.old < 2 ^ 64 - 1 }
    ensures ok { OnOk result (Appends (K.contents sink.old) (K.contents sink.new) text.now) }
    ensures err { OnErr result (AppendsPrefix (K.contents sink.old) (K.contents sink.new) text.now) }
    ensures calm { OnOk result (K.failures sink.new ≡ K.failures sink.old) }
    ensures failed { OnErr result (K.failures sink.new ≡ K.failures sink.old + 1) }
{
    let mut at = 0;
    while at < text.len() {
        let n = sink.write(&text[at..])?;
        if n == 0 {
            return Err(Failed);
        }
        at += n;
    }
    Ok(())
}
