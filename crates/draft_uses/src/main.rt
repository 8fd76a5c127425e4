//! A section extended in memory: the adds of one draft are committed, and another draft is abandoned.
//!
//! The first draft stands in a slot: each call takes it from there, where it must be shown to be there, and a slot ends only where it is shown
//! to be empty. So the proof refuses to let that draft go, and to add to it once it is committed.
#![tactic(auto)]

ghost use Rattle.std.specs.Prelude.{IsSome, IsNone};

use adding::adds::{NewAdd, With};
use refusals::calls::SaveFault;
use sample::{END, lay_out};
use section::access::Figures;
use section::drafting::{Added, Draft, NotCommitted};
use section::files::File;
use section::space::Space;
use store::flat_store::Flat;

// What each add and then the commit answered.
struct Extended {
    plain: Result<Option<u32>, SaveFault>,
    data: Result<Option<u32>, SaveFault>,
    branch: Result<Option<u32>, SaveFault>,
    committed: Result<(), SaveFault>,
}

// A node of the sample's first list.
fn node<'a>(payload: &'a [u8], with: With<'a>) -> NewAdd<'a> {
    NewAdd {
        list: 16,
        id: 5,
        payload,
        with,
    }
}

// Ends a slot that holds no draft.
fn settled(slot: Option<Draft>)
    requires { IsNone slot }
{
    match slot {
        None => {}
        Some(_draft) => unreachable!(),
    }
}

// Adds in the draft of a slot, and puts it back.
fn add(
    file: &mut File<Flat>,
    slot: &mut Option<Draft>,
    new: &NewAdd,
) -> Result<Option<u32>, SaveFault>
    requires { IsSome slot.old }
    ensures { IsSome slot.new }
{
    let Added { draft, done } = file.add(slot.take().unwrap(), new);
    settled(slot.replace(draft));
    done
}

// Commits the draft of a slot; a draft that is refused is abandoned.
fn commit(
    file: &mut File<Flat>,
    slot: &mut Option<Draft>,
    version: &[u8; 16],
) -> Result<(), SaveFault>
    requires { IsSome slot.old }
    ensures { IsNone slot.new }
{
    match file.commit(slot.take().unwrap(), version) {
        Ok(()) => Ok(()),
        Err(NotCommitted { draft, fault }) => {
            let _ = file.abandon(draft);
            Err(fault)
        }
    }
}

// One draft with an add of each kind, committed.
fn extend(file: &mut File<Flat>) -> Result<Extended, SaveFault> {
    let mut slot = Some(file.begin()?);
    let plain = add(file, &mut slot, &node(b"more", With::Nothing));
    let data = add(file, &mut slot, &node(b"text", With::Data(b"more data")));
    let first = With::List {
        id: 6,
        payload: b"first",
    };
    let branch = add(file, &mut slot, &node(b"list", first));
    let committed = commit(file, &mut slot, &[7; 16]);
    settled(slot);
    Ok(Extended {
        plain,
        data,
        branch,
        committed,
    })
}

// A draft with one node, abandoned. A draft that is a plain variable needs no proof: the language itself refuses to let it go.
fn abandon(file: &mut File<Flat>) -> Result<(), SaveFault> {
    let draft = file.begin()?;
    let Added { draft, done } = file.add(draft, &node(b"gone", With::Nothing));
    let abandoned = file.abandon(draft);
    done?;
    abandoned
}

// Tells an add, and the list that it made, if it made one.
fn tell_add(
    rt: &HostRuntime,
    name: &str,
    done: Result<Option<u32>, SaveFault>,
) -> anyhow::Result<()> {
    match done {
        Ok(None) => println!(rt; "{name}: added")?,
        Ok(Some(list)) => println!(rt; "{name}: added, list {list} made")?,
        Err(fault) => println!(rt; "{name}: refused {fault}")?,
    }
    Ok(())
}

// Tells whether a call was done.
fn tell(rt: &HostRuntime, name: &str, done: Result<(), SaveFault>) -> anyhow::Result<()> {
    match done {
        Ok(()) => println!(rt; "{name}: done")?,
        Err(fault) => println!(rt; "{name}: refused {fault}")?,
    }
    Ok(())
}

// Tells how many nodes a list has after so many transactions.
fn tell_nodes(rt: &HostRuntime, file: &File<Flat>, k: u64, list: u32) -> anyhow::Result<()> {
    match file.count_at(k, list) {
        Ok(nodes) => println!(rt; "list {list} after transaction {k}: {nodes} nodes")?,
        Err(fault) => println!(rt; "list {list} after transaction {k}: refused {fault}")?,
    }
    Ok(())
}

// The sample in a flat store with room for more, as a file that is not open.
fn sample_file(rt: &HostRuntime) -> anyhow::Result<File<Flat>> {
    let mut store = Flat::new(vec![in rt.alloc(); 0u8; 8192]?, END)?;
    lay_out(&mut store)?;
    Ok(File::new(store, Space::new(rt.alloc(), 64)?))
}

fn tell_opened(rt: &HostRuntime, file: &mut File<Flat>) -> anyhow::Result<()> {
    let Figures { end, lists, .. } = file.open(1)?;
    println!(rt; "opened: end {end}, lists {lists}")?;
    Ok(())
}

fn tell_extended(rt: &HostRuntime, file: &mut File<Flat>) -> anyhow::Result<()> {
    let Extended {
        plain,
        data,
        branch,
        committed,
    } = extend(file)?;
    tell_add(rt, "plain node", plain)?;
    tell_add(rt, "node with data", data)?;
    tell_add(rt, "node with a list", branch)?;
    tell(rt, "commit", committed)
}

fn tell_lists(rt: &HostRuntime, file: &File<Flat>) -> anyhow::Result<()> {
    for (k, list) in [(1, 16), (2, 16), (2, 18), (3, 16)] {
        tell_nodes(rt, file, k, list)?;
    }
    Ok(())
}

fn run(rt: &HostRuntime) -> anyhow::Result<()> {
    let mut file = sample_file(rt)?;
    tell_opened(rt, &mut file)?;
    tell_extended(rt, &mut file)?;
    tell(rt, "abandon", abandon(&mut file))?;
    tell_lists(rt, &file)
}

fn main(rt: HostRuntime) -> anyhow::Result<()> {
    run(&rt)
}
