//! A file whose lists were read.
ghost use Rattle.std.specs.Prelude.{◌≡◌, ◌+◌, ◌^◌, ◌≤◌, List, []};
ghost use Rattle.model.specs.declared.types.Header.{Header};
ghost use Rattle.model.specs.Faults.{done};
ghost use Rattle.model.specs.ListFragments.{nodes_from, nodes_to};
ghost use Rattle.model.specs.Section.{Log, NodeList};
ghost use Rattle.model.specs.OpenedLists.{NodePart, nodes_at};
ghost use Rattle.model.specs.Opened.{all_data};
ghost use Rattle.model.specs.Breaks.{Walked};
ghost use Rattle.refusals.specs.Checked.{Checked};
ghost use Rattle.data_pass.specs.DataWalks.{reference_checks, node_checks, part_nodes, Scans};
ghost use Rattle.data_pass.specs.Files.{Filed};
ghost use Rattle.data_pass.specs.ListWalks.{Lies, list_data};

use format::nodes::{NodeHead, Target};
use model::types::Span;
use node_walk::fragments::ListFragment;
use node_walk::{is_bad, node_before};
use refusals::faults::{InList, ListFault};
use store::base::Store;
use tables::fragments::Fragments;
use tables::places::passes;
use tables::room::Row;

/// A store whose lists were read: the file's end, and its fragments.
#[derive(Drop)]
pub(crate) struct Listed<'a, S> {
    pub store: &'a S,
    pub end: u64,
    pub fragments: &'a Fragments,
    ghost short: { end ≤ 2 ^ 40 },
}

impl<S: Store> Listed<'_, S> {
    /// The data references of all lists.
    pub fn check_lists(&self, rows: &[Row]) -> Result<(), InList>
        ensures { (h : Header) (log : Log) (ls : List NodeList) → h.end ≡ self.now.end → Walked (S.Store.bytes self.now.store.now) h log ls [] → Filed log ls rows.now self.now.fragments.now → Checked (all_data h log ls) result }
    {
        for row in rows {
            self.check_list(row)?;
        }
        Ok(())
    }

    // Those of a list, fragment by fragment. In tables that are in step every fragment is there, and lies in the file.
    fn check_list(&self, row: &Row) -> Result<(), InList>
        ensures { (l : NodeList) → Lies (S.Store.bytes self.now.store.now) self.now.end row.now self.now.fragments.now l → Checked (list_data self.now.end self.now.fragments.now l) result }
    {
        let end = row.first.saturating_add(row.fragments);
        let Some(spans) = self.fragments.as_slice().get(row.first..end) else {
            return Ok(());
        };
        let mut left = row.nodes;
        for span in spans {
            if span.size < 36 || passes(self.end, *span) {
                return Ok(());
            }
            left = self.check_nodes(row.id, ListFragment { span: *span }, left)?;
        }
        Ok(())
    }

    // Those of a fragment's nodes, at most `left`; answers how many nodes are left.
    fn check_nodes(&self, list: u32, fragment: ListFragment, left: u32) -> Result<u32, InList>
        ensures { (p : NodePart) → nodes_at left (S.Store.bytes self.now.store.now) list (nodes_to fragment.span) (nodes_from fragment.span) [] ≡ done p → Scans self.now.end self.now.fragments.now list left (part_nodes p) result }
    {
        let stop = fragment.nodes_to();
        let mut place = fragment.nodes_from();
        for nodes in 0..left {
            let Some(node) = node_before(self.store, place, stop) else {
                return Ok(left - nodes);
            };
            if is_bad(&node.head, place, stop) {
                return Ok(0);
            }
            self.check_node(list, place, node)?;
            place += node.head.size as u64;
        }
        Ok(0)
    }

    // That of the node at `place`, if it has one.
    fn check_node(&self, list: u32, place: u64, node: NodeHead) -> Result<(), InList>
        requires { place ≤ 2 ^ 40 }
        ensures { Checked (node_checks self.now.end self.now.fragments.now list place node.head.base node.reference) result }
    {
        if node.refers_to(Target::Data) {
            self.check_reference(list, place + 4, node.reference)
        } else {
            Ok(())
        }
    }

    fn check_reference(&self, list: u32, field: u64, span: Span) -> Result<(), InList>
        ensures { Checked (reference_checks self.now.end self.now.fragments.now list field span) result }
    {
        if passes(self.end, span) {
            return Err(InList {
                fault: ListFault::Outside { place: field },
                list,
            });
        }
        if self.fragments.overlaps(span) {
            return Err(InList {
                fault: ListFault::Overlap { place: field },
                list,
            });
        }
        Ok(())
    }
}
