//! The text of a model, and its fingerprint.
ghost use Rattle.std.specs.Prelude.{◌≡◌, ◌++◌, IfOk, OnOk, OnErr, codes, decimal, length, string_bytes};
ghost use Rattle.cg_report.specs.Texts.{line, version_text, fingerprint_text, model_lines};

use cg_model::ModelTree;
use cg_num::NoMemory;
use cg_writing::model_text;
use itoa::Buffer;
use sha2::{Digest, Sha256};
use std::alloc::Global;

/// Appends the SHA-256 of these bytes, as 64 hexadecimal digits with small letters.
pub fn fingerprint(alloc: Global, bytes: &[u8], out: &mut Vec<u8>) -> Result<(), NoMemory>
    ensures ok { OnOk result (out.new.items ≡ out.old.items ++ fingerprint_text bytes.now) }
    ensures err { OnErr result (out.new.items ≡ out.old.items) }
{
    let text = fingerprint_of(alloc, bytes)?;
    out.extend_from_slice(text.as_bytes())?;
    Ok(())
}

fn fingerprint_of(alloc: Global, bytes: &[u8]) -> Result<String, NoMemory>
    ensures { IfOk result (λ text. string_bytes text ≡ fingerprint_text bytes.now) }
{
    let mut hasher = Sha256::new();
    hasher.update(bytes);
    let digest = hasher.finalize();
    Ok(hex::encode(alloc, digest.as_slice())?)
}

/// Appends a line with the version of a model, the length of its canonical text in bytes and the fingerprint of that
/// text, and then the text.
pub fn model_lines(
    alloc: Global,
    version: u32,
    model: &ModelTree,
    out: &mut Vec<u8>,
) -> Result<(), NoMemory>
    ensures ok { OnOk result (out.new.items ≡ out.old.items ++ model_lines version model.now) }
    ensures err { OnErr result (out.new.items ≡ out.old.items) }
{
    let canonical = model_text(alloc, model)?;
    let mut text = model_line(alloc, version, &canonical)?;
    text.extend_from_slice(&canonical)?;
    out.extend_from_slice(&text)?;
    Ok(())
}

fn model_line(alloc: Global, version: u32, canonical: &[u8]) -> Result<Vec<u8>, NoMemory>
    ensures { IfOk result (λ text. text.items ≡ line (codes "model " ++ version_text version ++ codes " "
        ++ decimal (length canonical.now) ++ codes " " ++ fingerprint_text canonical.now)) }
{
    let mut digits = Buffer::new();
    let mut text = Vec::new(alloc);
    text.extend_from_slice(b"model v")?;
    text.extend_from_slice(digits.format(version).as_bytes())?;
    text.extend_from_slice(b" ")?;
    text.extend_from_slice(digits.format(canonical.len()).as_bytes())?;
    text.extend_from_slice(b" ")?;
    fingerprint(alloc, canonical, &mut text)?;
    text.extend_from_slice(b"\n")?;
    Ok(text)
}
