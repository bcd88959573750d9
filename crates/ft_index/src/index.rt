//! An index over its documents' ids: entries of lists first, liveness last.
ghost use Rattle.std.specs.Prelude.{◌≡◌, ◌<◌, ◌≤◌, None, Some, [], length, IfOk, OnErr, OnOk};
ghost use Rattle.ft_meaning.specs.Meaning.{ValuesFit};
ghost use Rattle.ft_meaning.specs.Member.{most_failures, one_more};
ghost use Rattle.ft_index.specs.Fits.{fit_of};
ghost use Rattle.ft_index.specs.Coming.{ListsCome};
ghost use Rattle.ft_index.specs.Index.{Indexes, IsIndex, OnlyWaits, StandsBeside, StandsOn, StandsWithout, committed, is_live, killed};
ghost use Rattle.ft_index.specs.Markers.{AreBefore, AreGiven, GainsMarkers, IsBefore};
ghost use Rattle.ft_index.specs.Parting.{PicturesPart};
ghost use Rattle.ft_index.specs.Snapshots.{IsSnapshot, PicturesAll};
ghost use Rattle.ft_index.specs.Splicing.{FitsName, GainsMarker, IsNew, SplicesName};
ghost use Rattle.ft_index.specs.Thinned.{ListsLive, ListsThin};

use crate::entering::enter;
use crate::lists::IndexLists;
use crate::live::LiveTable;
use crate::ready::{Fit, Ready, fit_of};
use crate::repairs::AnyRepair;
use crate::rounds::{Round, next_pictures};
use crate::snapshots::Snapshot;
use doc_table::DocTable;
use ft_base::{Doc, IndexDef, NoMemory};
use gc_splice::Spliced;
use id_iters::ListName;
use inverted_list::{Marker, Markers};
use std::alloc::Global;
use std::marker::Model;

/// How often a document that fails to be indexed is counted at the most.
const MOST_FAILURES: u64 = 9_223_372_036_854_775_807;

/// An index of documents by the words, the tags and the numbers of their fields.
pub struct FtIndex {
    alloc: Global,
    def: IndexDef,
    table: DocTable,
    lists: IndexLists,
    waits: Option<Ready>,
    failures: u64,
    round: Round,
}

// Written out, it is one step for whoever drops an index.
impl Drop for FtIndex {
    fn drop(self) {
        let FtIndex {
            alloc: _,
            def,
            table,
            lists,
            waits: _,
            failures: _,
            round,
        } = self;
        drop(def);
        drop(table);
        drop(lists);
        drop(round);
    }
}

impl Model for FtIndex {
    ghost use Rattle.ft_index.specs.Index.{Index, IsIndex};

    ghost Value = { Index };

    ghost view = { λ i. record {
      def = i.def;
      table = i.table;
      lists = i.lists;
      waits = i.waits;
      failures = i.failures;
    } };

    ghost use Rattle.std.specs.Prelude.{◌≤◌, length};

    ghost invariant = { λ i. IsIndex (record {
      def = i.def;
      table = i.table;
      lists = i.lists;
      waits = i.waits;
      failures = i.failures;
    }) × (length i.def.fields ≤ 1_024) };
}

impl FtIndex {
    /// An index without documents, whose lists have no entries.
    pub fn new(alloc: Global, def: IndexDef, markers: &mut Markers) -> Result<FtIndex, NoMemory>
        requires { length def.fields ≤ 1_024 }
        ensures empty { IfOk result (λ index. index ≡ record {
          def = def;
          table = record { live = []; ready = None; last = 0 };
          lists = index.lists;
          waits = None;
          failures = 0;
        }) }
        ensures none { IfOk result (λ index. Indexes index []) }
        ensures sound { IfOk result IsIndex }
        // Which markers its lists have.
        ensures before { IfOk result (λ index. AreBefore markers.new index.lists) }
        ensures given { IfOk result (λ index. AreGiven markers.old markers.new index.lists) }
        ensures event { markers.new.event ≡ markers.old.event }
        ensures next { markers.old.next ≤ markers.new.next }
    {
        let lists = IndexLists::new(alloc, &def, markers)?;
        Ok(FtIndex {
            alloc,
            def,
            table: DocTable::new(alloc),
            lists,
            waits: None,
            failures: 0,
            round: Round::new(alloc),
        })
    }

    /// What the index is defined by.
    pub fn def(&self) -> &IndexDef
        ensures def { result.now ≡ self.now.def }
        ensures sound { IsIndex self.now }
        ensures fields { length result.now.fields ≤ 1_024 }
    {
        &self.def
    }

    /// The documents of the index, lent.
    pub fn table(&self) -> &DocTable
        ensures { result.now ≡ self.now.table }
    {
        &self.table
    }

    /// The posting lists of the index, lent.
    pub fn lists(&self) -> &IndexLists
        ensures { result.now ≡ self.now.lists }
    {
        &self.lists
    }

    /// The number of live documents.
    pub fn docs(&self) -> u64
        ensures { result ≡ length self.now.table.live }
    {
        self.table.len() as u64
    }

    /// What the last `prepare` answered, until it is committed.
    pub fn ready(&self) -> Option<Ready>
        ensures { result ≡ self.now.waits }
    {
        self.waits
    }

    /// How often a document failed to be indexed. From 2^63 - 1 on it stays.
    pub fn failures(&self) -> u64
        ensures count { result ≡ self.now.failures }
        ensures most { result ≤ most_failures }
    {
        self.failures
    }

    /// Goes on counting from here, as an index does that takes another one's place.
    pub fn count_from(&mut self, failures: u64)
        requires { failures ≤ most_failures }
        ensures { self.new ≡ record self.old { failures = failures } }
    {
        self.failures = failures;
    }

    /// Tries a document, and puts the entries of a member into the lists, under an id that is not
    /// live. Out of memory, some of them may have come, which are dead.
    pub fn prepare(&mut self, doc: &Doc, markers: &mut Markers) -> Result<Ready, NoMemory>
        requires id { self.old.table.last < doc.now.id }
        requires values { ValuesFit doc.now.hash }
        requires markers { AreBefore markers.old self.old.lists }
        // Nothing of it is seen yet, out of memory or not.
        ensures unseen { StandsOn self.old self.new }
        ensures live { self.new.table.live ≡ self.old.table.live }
        ensures def { self.new.def ≡ self.old.def }
        ensures failures { self.new.failures ≡ self.old.failures }
        // Once it is committed, the index stands for it too.
        ensures ready { IfOk result (λ ready.
            ready ≡ record { id = doc.now.id; fit = fit_of self.old.def doc.now }) }
        ensures waits { IfOk result (λ ready. self.new.waits ≡ Some ready) }
        ensures seen { OnOk result (StandsBeside doc.now self.old (committed self.new)) }
        ensures last { self.new.table.last ≤ doc.now.id }
        ensures sound { IsIndex self.new }
        // Where it is no member, nothing else changes; out of memory nothing waits.
        ensures others { IfOk result (λ ready. OnlyWaits ready self.old self.new) }
        ensures none { OnErr result (self.new.waits ≡ None) }
        // Which markers its lists have.
        ensures before { AreBefore markers.new self.new.lists }
        ensures gains { GainsMarkers self.old.lists self.new.lists markers.old markers.new }
        // Each list that was made before has grown from what it was.
        ensures comes { ListsCome markers.old.event self.old.lists self.new.lists }
        ensures event { markers.new.event ≡ markers.old.event }
        ensures next { markers.old.next ≤ markers.new.next }
    {
        let fit = fit_of(&self.def, doc);
        let ready = Ready { id: doc.id(), fit };
        match fit {
            Fit::Member => self.waits = None,
            Fit::NoPrefix | Fit::Failed => {
                self.waits = Some(ready);
                return Ok(ready);
            }
        }
        // Until it is committed, what it leaves in the lists is dead.
        self.round.count(true);
        enter(
            self.alloc,
            &self.def,
            &mut self.table,
            &mut self.lists,
            doc,
            markers,
        )?;
        self.waits = Some(ready);
        Ok(ready)
    }

    /// A member that was prepared last becomes live, and one that fails to be is counted. It takes no
    /// memory.
    pub fn commit(&mut self, ready: Ready)
        requires { self.old.waits ≡ Some ready }
        ensures { self.new ≡ committed self.old }
    {
        self.waits = None;
        match ready.fit {
            Fit::Member => {
                self.round.uncount();
                self.table.commit(ready.id)
            }
            Fit::NoPrefix => {}
            Fit::Failed => self.failures = one_more(self.failures),
        }
    }

    /// Takes a document out, and answers whether it was live. Its entries stay, and are dead. It
    /// takes no memory.
    pub fn kill(&mut self, id: u64) -> bool
        ensures was { result ≡ is_live self.old id }
        ensures gone { self.new ≡ killed id self.old }
        ensures docs { StandsWithout id self.old self.new }
    {
        let was = self.table.kill(id);
        self.round.count(was);
        was
    }

    /// A picture of every list of the index, and which ids are live, at the number of an event.
    pub fn scan(&self, number: u64) -> Result<Snapshot, NoMemory>
        ensures scanned { IfOk result (IsSnapshot self.now number) }
        ensures every { IfOk result (PicturesAll self.now.lists) }
    {
        let live = self.table.live_bits()?;
        let lists = self.lists.pictures()?;
        Ok(Snapshot {
            serial: self.def.serial,
            number,
            live,
            lists,
        })
    }

    /// Pictures of the next part of the lists, in the order of names, and which ids are live, at the number of an event. Where no
    /// round over the lists is under way, one begins once an eighth as many ids died as documents are live; until then the part is
    /// empty. Lists that the last part passed over, which have no sealed block, lose their dead entries where they stand. At
    /// number 2^62 nothing changes, since no later event could tell the lists' new markers.
    pub fn scan_next(&mut self, number: u64, markers: &mut Markers) -> Result<Snapshot, NoMemory>
        requires markers { AreBefore markers.old self.old.lists }
        ensures scanned { IfOk result (IsSnapshot self.new number) }
        ensures part { IfOk result (λ snapshot. PicturesPart self.new.lists snapshot.lists) }
        ensures still { 4_611_686_018_427_387_904 ≤ number → (self.new ≡ self.old) × (markers.new ≡ markers.old) }
        // It stands for the same documents.
        ensures stands { StandsOn self.old self.new }
        ensures lists { self.new ≡ record self.old { lists = self.new.lists } }
        ensures thin { ListsThin (is_live self.old) self.old.lists self.new.lists }
        ensures sound { IsIndex self.new }
        // Which markers its lists have.
        ensures before { AreBefore markers.new self.new.lists }
        ensures gains { GainsMarkers self.old.lists self.new.lists markers.old markers.new }
        // A list that lost entries is made anew, and each other one stays.
        ensures comes { ListsCome markers.old.event self.old.lists self.new.lists }
        ensures event { markers.new.event ≡ markers.old.event }
        ensures next { markers.old.next ≤ markers.new.next }
    {
        let live = self.table.live_bits()?;
        let lists = next_pictures(
            self.alloc,
            &self.table,
            &mut self.lists,
            &mut self.round,
            number,
            markers,
        )?;
        Ok(Snapshot {
            serial: self.def.serial,
            number,
            live,
            lists,
        })
    }

    /// Splices a repair into the list of a name. It takes no memory: what it takes out it leaves in the repair.
    pub fn splice(&mut self, name: &ListName, repair: &mut AnyRepair, marker: Marker) -> Spliced
        requires fits { FitsName (is_live self.old) self.old.lists name.now repair.old }
        requires fresh { IsNew marker self.old.lists }
        ensures splices { SplicesName name.now repair.old marker self.old.lists self.new.lists result }
        // It stands for the same documents.
        ensures stands { StandsOn self.old self.new }
        ensures lists { self.new ≡ record self.old { lists = self.new.lists } }
        ensures thin { ListsThin (is_live self.old) self.old.lists self.new.lists }
        ensures sound { IsIndex self.new }
        // Which markers its lists have.
        ensures before { (markers : Markers) → IsBefore markers marker → AreBefore markers self.old.lists → AreBefore markers self.new.lists }
        ensures gains { GainsMarker self.old.lists self.new.lists marker }
        // The list is made anew, and each other one stays.
        ensures comes { ListsCome marker.event self.old.lists self.new.lists }
    {
        self.lists.splice(name, repair, marker)
    }

    /// Takes the entries out of all lists whose documents are not live. Out of memory, some lists still have theirs.
    pub fn collect(&mut self, markers: &mut Markers) -> Result<(), NoMemory>
        requires markers { AreBefore markers.old self.old.lists }
        // It stands for the same documents.
        ensures stands { StandsOn self.old self.new }
        ensures lists { self.new ≡ record self.old { lists = self.new.lists } }
        ensures thin { ListsThin (is_live self.old) self.old.lists self.new.lists }
        ensures live { OnOk result (ListsLive (is_live self.new) self.new.lists) }
        ensures sound { IsIndex self.new }
        // Which markers its lists have.
        ensures before { AreBefore markers.new self.new.lists }
        ensures gains { GainsMarkers self.old.lists self.new.lists markers.old markers.new }
        // A list that lost entries is made anew, and each other one stays.
        ensures comes { ListsCome markers.old.event self.old.lists self.new.lists }
        ensures event { markers.new.event ≡ markers.old.event }
        ensures next { markers.old.next ≤ markers.new.next }
    {
        let live = LiveTable { table: &self.table };
        let collected = self.lists.collect(&live, markers);
        self.round.end(&collected);
        collected
    }
}

/// The count with one failure more.
fn one_more(failures: u64) -> u64
    requires { failures ≤ most_failures }
    ensures { result ≡ one_more failures }
{
    if failures < MOST_FAILURES {
        failures + 1
    } else {
        MOST_FAILURES
    }
}
