use crate::failure::Failure;
use std::alloc::Global;
use sync_base::Instr;
use sync_edits::{NodeLine, node_line_of};

/// What stands before the first tab of a line, and what stands behind it.
pub fn cut(line: &str) -> (&str, &str) {
    match line.split_once('\t') {
        Some(parts) => parts,
        None => (line, ""),
    }
}

/// The instructions of a list of edits (docs/FORMATS.md, "Edits").
pub fn edits(alloc: Global, field: &str) -> Result<Vec<Instr>, Failure> {
    let line = format!(in alloc; "{{\"ms\":0,\"edits\":{field}}}")?;
    match node_line_of(alloc, line.as_bytes())? {
        NodeLine::Commit { edits, .. } => Ok(edits.into_vec()),
        _ => Err(Failure::Line),
    }
}

/// The instructions of a list of edits, or where the field is `=`, those given.
pub fn edits_or(alloc: Global, field: &str, given: &[Instr]) -> Result<Vec<Instr>, Failure> {
    match field {
        "=" => copies(alloc, given),
        _ => edits(alloc, field),
    }
}

pub fn copies(alloc: Global, instrs: &[Instr]) -> Result<Vec<Instr>, Failure> {
    let mut copies = Vec::new(alloc);
    for instr in instrs {
        copies.push(instr.copy()?)?;
    }
    Ok(copies)
}

pub fn number(field: &str) -> Result<u32, Failure> {
    match field.parse::<u32>() {
        Ok(number) => Ok(number),
        Err(_) => Err(Failure::Line),
    }
}

/// Drops a value, so that no caller's proof has the cases of its kind.
pub fn let_go<T: Drop>(_: T) {}
