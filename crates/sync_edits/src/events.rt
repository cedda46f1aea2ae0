ghost use Rattle.std.specs.Prelude.{◌≡◌};
ghost use Rattle.sync_value_text.specs.Forms.{Decides, Reads};
ghost use Rattle.sync_edits.specs.Events.{client_form, transaction_form, only_client, bind_form, upload_form, ask_form, upgrade_form, subscribe_form, deliver_form, restart_form, at_form, leaves_of_word, stop_form, inject_form, event_by_word as by_word, event_form, born_form, commit_form, node_upgrade_form, node_subscribe_form, node_line_form};
ghost use Rattle.serde_json.specs.View.{view};

use super::edits::edits_field;
use super::event::{Event, NodeLine};
use super::tables::tables_field;
use serde_json::Value as Json;
use std::alloc::Global;
use sync_data::Name;
use sync_disk::Leaves;
use sync_value_text::{
    TextRefusal, exactly, has_field, hex_field, id_field, name_field, number_field, place_field,
    text_field,
};

/// The greatest number of a write or sync at which a disk is stopped.
const LAST_STOP: u32 = 1_000_000;

/// The event of an object, named by its field `event`.
#[tactic(auto, unfolding(crate::specs::Events::event_form))]
pub(crate) fn event_from(alloc: Global, json: &Json) -> Result<Event, TextRefusal>
    ensures { Reads result (event_form (view json.now)) }
{
    let word = text_field(json, "event")?;
    event_by_word(alloc, word, json)
}

#[tactic(auto, unfolding(crate::specs::Events::event_by_word))]
fn event_by_word(alloc: Global, word: &str, json: &Json) -> Result<Event, TextRefusal>
    ensures { Reads result (by_word word.now (view json.now)) }
{
    match word {
        "client" => client_event(json),
        "edit" => edit_event(alloc, json),
        "bind" => bind_event(json),
        "upload" => upload_event(json),
        "ask" => ask_event(json),
        "deliver" => deliver_event(json),
        "restart" => restart_event(json),
        "stop" => stop_event(json),
        "inject" => inject_event(alloc, json),
        "upgrade" => upgrade_event(json),
        "subscribe" => subscribe_event(alloc, json),
        _ => Err(TextRefusal::BadValue),
    }
}

#[tactic(auto, unfolding(crate::specs::Events::client_form))]
fn client_event(json: &Json) -> Result<Event, TextRefusal>
    ensures { Decides result (client_form (view json.now)) }
{
    exactly(json, 3)?;
    let name = name_field(json, "name")?;
    let id = id_field(json, "uuid")?;
    Ok(Event::Client { name, id })
}

#[tactic(auto, unfolding(crate::specs::Events::transaction_form))]
fn edit_event(alloc: Global, json: &Json) -> Result<Event, TextRefusal>
    ensures { Reads result (transaction_form (view json.now)) }
{
    exactly(json, 4)?;
    let client = name_field(json, "client")?;
    let ms = number_field(json, "ms")?;
    let edits = edits_field(alloc, json)?;
    Ok(Event::Edit { client, ms, edits })
}

#[tactic(auto, unfolding(crate::specs::Events::only_client))]
fn only_client_of(json: &Json) -> Result<Name, TextRefusal>
    ensures { Decides result (only_client (view json.now)) }
{
    exactly(json, 2)?;
    name_field(json, "client")
}

#[tactic(auto, unfolding(crate::specs::Events::bind_form))]
fn bind_event(json: &Json) -> Result<Event, TextRefusal>
    ensures { Decides result (bind_form (view json.now)) }
{
    let client = only_client_of(json)?;
    Ok(Event::Bind { client })
}

#[tactic(auto, unfolding(crate::specs::Events::upload_form))]
fn upload_event(json: &Json) -> Result<Event, TextRefusal>
    ensures { Decides result (upload_form (view json.now)) }
{
    let client = only_client_of(json)?;
    Ok(Event::Upload { client })
}

#[tactic(auto, unfolding(crate::specs::Events::ask_form))]
fn ask_event(json: &Json) -> Result<Event, TextRefusal>
    ensures { Decides result (ask_form (view json.now)) }
{
    let client = only_client_of(json)?;
    Ok(Event::Ask { client })
}

#[tactic(auto, unfolding(crate::specs::Events::upgrade_form))]
fn upgrade_event(json: &Json) -> Result<Event, TextRefusal>
    ensures { Decides result (upgrade_form (view json.now)) }
{
    let client = only_client_of(json)?;
    Ok(Event::Upgrade { client })
}

#[tactic(auto, unfolding(crate::specs::Events::subscribe_form))]
fn subscribe_event(alloc: Global, json: &Json) -> Result<Event, TextRefusal>
    ensures { Reads result (subscribe_form (view json.now)) }
{
    exactly(json, 3)?;
    let client = name_field(json, "client")?;
    let tables = tables_field(alloc, json)?;
    Ok(Event::Subscribe { client, tables })
}

#[tactic(auto, unfolding(crate::specs::Events::deliver_form))]
fn deliver_event(json: &Json) -> Result<Event, TextRefusal>
    ensures { Decides result (deliver_form (view json.now)) }
{
    exactly(json, 3)?;
    let message = place_field(json, "message")?;
    let to = name_field(json, "to")?;
    Ok(Event::Deliver { message, to })
}

#[tactic(auto, unfolding(crate::specs::Events::restart_form))]
fn restart_event(json: &Json) -> Result<Event, TextRefusal>
    ensures { Decides result (restart_form (view json.now)) }
{
    exactly(json, 2)?;
    let node = name_field(json, "node")?;
    Ok(Event::Restart { node })
}

#[tactic(auto, unfolding(crate::specs::Events::stop_form))]
fn stop_event(json: &Json) -> Result<Event, TextRefusal>
    ensures { Decides result (stop_form (view json.now)) }
{
    exactly(json, 4)?;
    let node = name_field(json, "node")?;
    let at = at_field(json)?;
    let word = text_field(json, "leaves")?;
    let leaves = leaves_of(word).ok_or(TextRefusal::BadValue)?;
    Ok(Event::Stop { node, at, leaves })
}

#[tactic(auto, unfolding(crate::specs::Events::at_form))]
fn at_field(json: &Json) -> Result<u32, TextRefusal>
    ensures { Decides result (at_form (view json.now)) }
{
    let at = place_field(json, "at")?;
    if at < 1 || at > LAST_STOP {
        return Err(TextRefusal::BadValue);
    }
    Ok(at)
}

#[tactic(auto, unfolding(crate::specs::Events::leaves_of_word))]
fn leaves_of(word: &str) -> Option<Leaves>
    ensures { result ≡ leaves_of_word word.now }
{
    match word {
        "drop" => Some(Leaves::Drop),
        "keep" => Some(Leaves::Keep),
        "torn" => Some(Leaves::Torn),
        _ => None,
    }
}

#[tactic(auto, unfolding(crate::specs::Events::inject_form))]
fn inject_event(alloc: Global, json: &Json) -> Result<Event, TextRefusal>
    ensures { Reads result (inject_form (view json.now)) }
{
    exactly(json, 2)?;
    let message = hex_field(alloc, json, "message")?;
    Ok(Event::Inject { message })
}

/// The node line of an object, named by one of its fields.
#[tactic(auto, unfolding(crate::specs::Events::node_line_form))]
pub(crate) fn node_line_from(alloc: Global, json: &Json) -> Result<NodeLine, TextRefusal>
    ensures { Reads result (node_line_form (view json.now)) }
{
    if has_field(json, "uuid") {
        born_line(json)
    } else if has_field(json, "upgrade") {
        upgrade_line(json)
    } else if has_field(json, "tables") {
        subscribe_line(alloc, json)
    } else {
        commit_line(alloc, json)
    }
}

#[tactic(auto, unfolding(crate::specs::Events::born_form))]
fn born_line(json: &Json) -> Result<NodeLine, TextRefusal>
    ensures { Decides result (born_form (view json.now)) }
{
    exactly(json, 1)?;
    let id = id_field(json, "uuid")?;
    Ok(NodeLine::Born { id })
}

#[tactic(auto, unfolding(crate::specs::Events::commit_form))]
fn commit_line(alloc: Global, json: &Json) -> Result<NodeLine, TextRefusal>
    ensures { Reads result (commit_form (view json.now)) }
{
    exactly(json, 2)?;
    let ms = number_field(json, "ms")?;
    let edits = edits_field(alloc, json)?;
    Ok(NodeLine::Commit { ms, edits })
}

#[tactic(auto, unfolding(crate::specs::Events::node_upgrade_form))]
fn upgrade_line(json: &Json) -> Result<NodeLine, TextRefusal>
    ensures { Decides result (node_upgrade_form (view json.now)) }
{
    exactly(json, 1)?;
    if number_field(json, "upgrade")? != 2 {
        return Err(TextRefusal::BadValue);
    }
    Ok(NodeLine::Upgrade)
}

#[tactic(auto, unfolding(crate::specs::Events::node_subscribe_form))]
fn subscribe_line(alloc: Global, json: &Json) -> Result<NodeLine, TextRefusal>
    ensures { Reads result (node_subscribe_form (view json.now)) }
{
    exactly(json, 1)?;
    let tables = tables_field(alloc, json)?;
    Ok(NodeLine::Subscribe { tables })
}
