//! Parts of effects.
//!
//! Each function appends its text. If memory runs out, it may have appended the start of it.

ghost use Rattle.std.specs.Prelude.{◌≡◌, ◌++◌, ◌∷◌, [], decimal, OnOk};
ghost use Rattle.vx_lines.specs.Records.{spaced, id_text, bit_text, cluster_text, cell_text, opened_name, mode_text, cond_text, joined_text, body_text};

use vx_base::{Body, Bytes, Cell, Cond, Id, Mode, Name, NoMemory, Opened, Pid};
use vx_table::mode_name;
use vx_text::{print_num, print_quote};

/// Appends a space and a text.
pub fn print_spaced(text: &[u8], out: &mut Bytes) -> Result<(), NoMemory>
    ensures { OnOk result (out.new ≡ out.old ++ 32 ∷ text.now) }
{
    out.push_all(b" ")?;
    out.push_all(text)
}

/// Appends a space and a number.
pub fn print_spaced_num(n: u32, out: &mut Bytes) -> Result<(), NoMemory>
    ensures { OnOk result (out.new ≡ out.old ++ 32 ∷ decimal n) }
{
    out.push_all(b" ")?;
    print_num(out, u64::from(n))
}

/// Appends an id.
pub fn print_id(id: Id, out: &mut Bytes) -> Result<(), NoMemory>
    ensures { OnOk result (out.new ≡ out.old ++ id_text id) }
{
    out.push_all(b"#")?;
    print_num(out, u64::from(id.0))
}

/// Appends a space and an id.
pub fn print_spaced_id(id: Id, out: &mut Bytes) -> Result<(), NoMemory>
    ensures { OnOk result (out.new ≡ out.old ++ 32 ∷ id_text id) }
{
    out.push_all(b" ")?;
    print_id(id, out)
}

/// Appends a space, and 1 or 0.
pub fn print_spaced_bit(bit: bool, out: &mut Bytes) -> Result<(), NoMemory>
    ensures { OnOk result (out.new ≡ out.old ++ 32 ∷ bit_text bit) }
{
    print_spaced_num(u32::from(bit), out)
}

/// Appends the group of a common cluster, a colon and its name.
pub fn print_cluster(group: u32, name: &Name, out: &mut Bytes) -> Result<(), NoMemory>
    ensures { OnOk result (out.new ≡ out.old ++ cluster_text group name.now) }
{
    print_num(out, u64::from(group))?;
    out.push_all(b":")?;
    out.push_all(name.text())
}

/// Appends an event flag.
pub fn print_cell(cell: &Cell, out: &mut Bytes) -> Result<(), NoMemory>
    ensures { OnOk result (out.new ≡ out.old ++ cell_text cell.now) }
{
    match cell {
        Cell::Local(p, efn) => {
            print_num(out, u64::from(p.0))?;
            out.push_all(b":")?;
            print_num(out, u64::from(*efn))
        }
        Cell::Common(group, name, n) => {
            print_cluster(*group, name, out)?;
            out.push_all(b":")?;
            print_num(out, u64::from(*n))
        }
    }
}

/// The word of what was opened.
pub fn opened_name(kind: Opened) -> &'static [u8]
    ensures { result.now ≡ opened_name kind }
{
    match kind {
        Opened::Bio => b"BIO",
        Opened::Dio => b"DIO",
        Opened::Attn => b"ATTN",
        Opened::Timer => b"TIMER",
        Opened::Wake => b"WAKE",
        Opened::Ast => b"AST",
        Opened::Force => b"FORCE",
        Opened::Exh => b"EXH",
    }
}

/// A mode's name, or `-` for none.
pub fn mode_text(mode: Option<Mode>) -> &'static [u8]
    ensures { result.now ≡ mode_text mode }
{
    match mode {
        None => b"-",
        Some(mode) => mode_name(mode),
    }
}

/// A condition's name, or `-` for none.
pub fn cond_text(cond: Option<Cond>) -> &'static [u8]
    ensures { result.now ≡ cond_text cond }
{
    match cond {
        None => b"-",
        Some(cond) => cond.name().as_bytes(),
    }
}

/// Appends a message's quoted text, or EOF.
pub fn print_body(body: &Body, out: &mut Bytes) -> Result<(), NoMemory>
    ensures { OnOk result (out.new ≡ out.old ++ body_text body.now) }
{
    match body {
        Body::Text(bytes) => print_quote(out, bytes.as_slice()),
        Body::Eof => out.push_all(b"EOF"),
    }
}

/// Appends a common cluster, or `-` for none.
pub fn print_joined(cluster: &Option<(u32, Name)>, out: &mut Bytes) -> Result<(), NoMemory>
    ensures { OnOk result (out.new ≡ out.old ++ joined_text cluster.now) }
{
    match cluster {
        None => out.push_all(b"-"),
        Some((group, name)) => print_cluster(*group, name, out),
    }
}

/// Appends what begins with an id: a word and the id.
pub fn print_of_id(word: &[u8], id: Id, out: &mut Bytes) -> Result<(), NoMemory>
    ensures { OnOk result (out.new ≡ out.old ++ spaced (word.now ∷ id_text id ∷ [])) }
{
    print_spaced(word, out)?;
    print_spaced_id(id, out)
}

/// Appends what begins with a process: a word and its number.
pub fn print_of_pid(word: &[u8], p: Pid, out: &mut Bytes) -> Result<(), NoMemory>
    ensures { OnOk result (out.new ≡ out.old ++ spaced (word.now ∷ decimal p.0 ∷ [])) }
{
    print_spaced(word, out)?;
    print_spaced_num(p.0, out)
}

/// Appends what begins with a name: a word and the name.
pub fn print_of_name(word: &[u8], name: &Name, out: &mut Bytes) -> Result<(), NoMemory>
    ensures { OnOk result (out.new ≡ out.old ++ spaced (word.now ∷ name.now ∷ [])) }
{
    print_spaced(word, out)?;
    print_spaced(name.text(), out)
}
