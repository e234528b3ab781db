//! The cluster that was lost: what the headers of its stores have in common.

ghost use Rattle.std.specs.Prelude.{◌≡◌, ◌↔◌, IsTrue, OnOk};
ghost use Rattle.lk_seed.specs.Survivors.{IsOfFirst, IsOfLost, IsSameCluster, Keeps, MayBeOf, first_of, moved};

use lk_node_files::causes::write_cause;
use lk_program_fault::ProgramFault;
use lk_store_format::Header;
use std::io::Write;

/// The lost cluster: another one than the new one, and the same for each of its stores.
#[derive(Drop)]
pub struct LostCluster<'a> {
    /// The number of the new cluster.
    pub new_cluster: u64,
    /// The first header that was found.
    pub first: Option<Header>,
    /// The folder of its store.
    pub folder: &'a str,
}

// Returns the header of the first one's node in the other one's cluster.
fn moved(one: &Header, other: &Header) -> Header
    ensures { result ≡ moved one.now other.now }
{
    Header::new(one.node(), other.genesis().copy())
}

// Whether two headers are of the same cluster, perhaps of different nodes.
#[tactic(auto, using(crate::proofs::LostLaws::of_moved, crate::proofs::LostLaws::to_moved))]
fn is_same_cluster(one: &Header, other: &Header) -> bool
    ensures { IsTrue result ↔ IsSameCluster one.now other.now }
{
    moved(one, other).is_same(one)
}

// Writes that the store of a folder is not of the cluster of another one's.
fn write_other<E: Write>(folder: &str, first: &str, err: &mut E) -> ProgramFault {
    let _ = writeln!(err, "{folder}: a store of another cluster than {first}");
    ProgramFault::CannotOpen
}

impl<'a> LostCluster<'a> {
    /// Nothing was found of it yet.
    pub fn unknown(new_cluster: u64) -> LostCluster<'a> {
        LostCluster {
            new_cluster,
            first: None,
            folder: "",
        }
    }

    // Whether there is no first header yet, or this one is of its cluster.
    fn may_have(&self, header: &Header) -> bool
        ensures { IsTrue result → MayBeOf self.now.first header.now }
    {
        match &self.first {
            Some(first) => is_same_cluster(first, header),
            None => true,
        }
    }

    // Keeps a header with its folder, if it is the first one.
    fn keep(&mut self, header: Header, folder: &'a str)
        ensures cluster { self.new.new_cluster ≡ self.old.new_cluster }
        ensures first { self.new.first ≡ first_of self.old.first header }
    {
        if self.first.is_none() {
            self.first = Some(header);
            self.folder = folder;
        }
    }

    // Keeps a header, if it is the first one. If it is of another cluster than the first one, writes so.
    #[tactic(auto, using(crate::proofs::LostLaws::keeps_same, crate::proofs::LostLaws::keeps_added, crate::proofs::LostLaws::of_added))]
    fn check_same<E: Write>(
        &mut self,
        header: Header,
        folder: &'a str,
        err: &mut E,
    ) -> Result<(), ProgramFault>
        ensures keeps { Keeps self.old self.new }
        ensures same { OnOk result (IsOfFirst self.new.first header) }
    {
        if !self.may_have(&header) {
            return Err(write_other(folder, self.folder, err));
        }
        self.keep(header, folder);
        Ok(())
    }

    /// Checks the header of a folder's store: it is of the lost cluster, and not of the new one. If not, writes so.
    #[tactic(auto, using(crate::proofs::LostLaws::keeps_same, crate::proofs::LostLaws::of_lost))]
    pub fn check<E: Write>(
        &mut self,
        header: Header,
        folder: &'a str,
        err: &mut E,
    ) -> Result<(), ProgramFault>
        ensures keeps { Keeps self.old self.new }
        ensures is { OnOk result (IsOfLost self.new header) }
    {
        if header.genesis().cluster == self.new_cluster {
            let text = "a store of this cluster: the new one needs another number";
            return Err(write_cause(folder, text, err));
        }
        self.check_same(header, folder, err)
    }
}
