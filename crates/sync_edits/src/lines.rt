ghost use Rattle.sync_value_text.specs.Forms.{Reads, ReadsBy};
ghost use Rattle.sync_edits.specs.Lines.{line_data, event_form_of_line, node_form_of_line, ReadsLine};
ghost use Rattle.serde_json.specs.View.{view};

use super::event::{Event, NodeLine};
use super::events::{event_from, node_line_from};
use super::refusal::LineRefusal;
use serde_json::Value as Json;
use std::alloc::Global;
use sync_value_text::TextRefusal;

/// The event that a line is: one JSON object of one of the forms, without the line's end. `BadLine` exactly
/// where it is none.
pub fn event_of(alloc: Global, line: &[u8]) -> Result<Event, LineRefusal>
    ensures { ReadsLine result (event_form_of_line line.now) }
{
    match read_event(alloc, line) {
        Ok(event) => Ok(event),
        Err(TextRefusal::BadValue) => Err(LineRefusal::BadLine),
        Err(TextRefusal::NoMemory) => Err(LineRefusal::NoMemory),
    }
}

/// The node line that a line is: one JSON object of one of the forms, without the line's end. `BadLine` exactly
/// where it is none.
pub fn node_line_of(alloc: Global, line: &[u8]) -> Result<NodeLine, LineRefusal>
    ensures { ReadsLine result (node_form_of_line line.now) }
{
    match read_node_line(alloc, line) {
        Ok(line) => Ok(line),
        Err(TextRefusal::BadValue) => Err(LineRefusal::BadLine),
        Err(TextRefusal::NoMemory) => Err(LineRefusal::NoMemory),
    }
}

#[tactic(auto, unfolding(crate::specs::Lines::event_form_of_line))]
fn read_event(alloc: Global, line: &[u8]) -> Result<Event, TextRefusal>
    ensures { Reads result (event_form_of_line line.now) }
{
    let json = json_of_line(alloc, line)?;
    event_from(alloc, &json)
}

#[tactic(auto, unfolding(crate::specs::Lines::node_form_of_line))]
fn read_node_line(alloc: Global, line: &[u8]) -> Result<NodeLine, TextRefusal>
    ensures { Reads result (node_form_of_line line.now) }
{
    let json = json_of_line(alloc, line)?;
    node_line_from(alloc, &json)
}

#[tactic(auto, unfolding(crate::specs::Lines::line_data))]
fn json_of_line(alloc: Global, line: &[u8]) -> Result<Json, TextRefusal>
    ensures { ReadsBy view result (line_data line.now) }
{
    let Ok(text) = str::from_utf8(line) else {
        return Err(TextRefusal::BadValue);
    };
    match Json::from_str(alloc, text) {
        Ok(json) => Ok(json),
        Err(e) if e.is_memory() => Err(TextRefusal::NoMemory),
        Err(_) => Err(TextRefusal::BadValue),
    }
}
