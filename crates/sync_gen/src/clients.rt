ghost use Rattle.std.specs.Prelude.{◌≡◌, ◌≤◌, IfOk, length};
ghost use Rattle.sync_gen.specs.Clients.{name_of, id_of, add_column, first_edits_of};

use super::instrs::{name, table};
use std::alloc::Global;
use sync_base::{AddColumn, AddTable, Column, Id, Instr, KeyKind, Kind, Name, NoMemory, Shape};

/// The number of clients, which are counted from 1.
pub const CLIENTS: u32 = 8;

/// The name of a client: `c1` to `c8`. It takes no memory.
#[tactic(auto, using(std::proofs::lemmas::Fmt::decimal_digit))]
pub fn client_name(client: u32) -> Name
    requires { (1 ≤ client) × (client ≤ CLIENTS) }
    ensures { result ≡ name_of client }
{
    name(match client {
        1 => "c1",
        2 => "c2",
        3 => "c3",
        4 => "c4",
        5 => "c5",
        6 => "c6",
        7 => "c7",
        _ => "c8",
    })
}

/// The uuid of a client, which ends in its number.
pub fn client_id(client: u32) -> Id
    requires { (1 ≤ client) × (client ≤ CLIENTS) }
    ensures { result ≡ id_of client }
{
    [
        0,
        0,
        0,
        0,
        0,
        0,
        0x40,
        0,
        0x80,
        0,
        0,
        0,
        0,
        0,
        0,
        client as u8,
    ]
}

/// The first transaction: the table and the columns that all edits are in.
pub fn first_edits(alloc: Global) -> Result<Vec<Instr>, NoMemory>
    ensures { IfOk result (λ edits. edits.items ≡ first_edits_of) }
{
    let edits = vec![in alloc;
        Instr::AddTable(AddTable {
            table: table(),
            key: KeyKind::Int
        }),
        add_column("n", Kind::Int, false, Shape::One),
        add_column("m", Kind::Int, true, Shape::One),
        add_column("s", Kind::Text, true, Shape::One),
        add_column("l", Kind::Text, false, Shape::List),
        add_column("u", Kind::Int, false, Shape::Set),
        add_column("k", Kind::Link(table()), true, Shape::One),
    ];
    match edits {
        Ok(edits) => Ok(edits),
        Err(_) => Err(NoMemory),
    }
}

fn add_column(column: &str, kind: Kind, nullable: bool, shape: Shape) -> Instr
    requires { (1 ≤ length column.now) × (length column.now ≤ 63) }
    ensures { result ≡ add_column column.now kind nullable shape }
{
    Instr::AddColumn(AddColumn {
        table: table(),
        column: name(column),
        def: Column {
            kind,
            nullable,
            shape,
        },
    })
}
