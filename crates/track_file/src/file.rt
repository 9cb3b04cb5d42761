ghost use Rattle.std.specs.Prelude.{◌≡◌, ◌≤◌, ◌<◌, ◌+◌, ◌^◌, ℕ, List, [], ◌∷◌, ◌++◌, drop, length};
ghost use Rattle.std.specs.Prelude.{IfErr, IfOk, OnErr, OnOk};
ghost use Rattle.disk_terms.specs.Disk.{at_rest};
ghost use Rattle.mast_world.specs.Changes.{IsSameBeside, Only};
ghost use Rattle.mast_world.specs.Count.{counted};
ghost use Rattle.mxf_track.specs.Sizes.{tail_size};
ghost use Rattle.track_file.specs.Causes.{IsBeginCause, IsCause};
ghost use Rattle.track_file.specs.TrackFile.{HasItems, HasValues};
ghost use Rattle.track_terms.specs.Keys.{key_of};
ghost use Rattle.track_terms.specs.Kinds.{terms_of};
ghost use Rattle.track_terms.specs.Track.{essence, track};

use crate::end::TrackEnd;
use klv_base::{Key, key_length};
use mast_world::{FileId, Volume};
use std::alloc::Global;
use std::marker::Model;
use track_terms::{TrackFacts, key_of};

/// How many bytes a head has.
const HEAD_LENGTH: u64 = 16_508;

/// How many bytes stand in front of an item's value.
pub const KEY_LENGTH: usize = 20;

/// A track file while its items are written. It knows where each one is, for the index.
#[derive(Debug, Drop)]
pub struct TrackFile {
    facts: TrackFacts,
    file: FileId,
    places: Vec<u64>,
    /// The file's end, where the next item goes.
    place: u64,
}

impl Model for TrackFile {
    ghost use Rattle.track_file.specs.TrackFile.{PlainTrack};

    ghost Value = { PlainTrack };

    ghost use Rattle.track_file.specs.TrackFile.{IsTrackFile};
    ghost use Rattle.track_file.specs.Views.{track_of};

    ghost view = { track_of };

    ghost invariant = { λ track. IsTrackFile (track_of track) };
}

/// The key of the file's items.
fn item_key(facts: &TrackFacts) -> Key
    ensures { result ≡ key_of (terms_of facts.now.kind).item_key }
{
    key_of(facts.kind.terms().item_key)
}

impl TrackFile {
    /// Writes the head of a track file in the place of what the file had. Memory for the places of all
    /// items is taken first.
    pub fn begin<V: Volume>(
        alloc: Global,
        volume: &mut V,
        file: FileId,
        facts: TrackFacts,
    ) -> Result<Self, TrackEnd>
        ensures begun { IfOk result (λ track. (track.facts ≡ facts) × (track.file ≡ file) × HasValues track []) }
        ensures written { V.tells → IfOk result (λ track. HasItems track [] (V.reads volume.new file)) }
        ensures end_on { V.tells → IfOk result (λ track. length (V.reads volume.new file) ≡ track.place) }
        ensures put { OnOk result (V.put volume.new file ≡ counted (V.put volume.old file) 16508) }

        ensures ended { IfErr result (IsBeginCause V.tells V.reads V.put V.faults V.history volume.old volume.new) }
        ensures untroubled { OnOk result (V.faults volume.new ≡ V.faults volume.old) }
        ensures beside { IsSameBeside (Only file) V.tells V.reads V.put V.faults V.history volume.old volume.new }
    {
        let head = mxf_header::head(alloc, &facts, 0)?;
        let places = Vec::with_capacity(alloc, facts.frames as usize)?;
        volume.cut(file, 0)?;
        volume.write(file, 0, head.as_slice())?;
        Ok(TrackFile {
            facts,
            file,
            places,
            place: HEAD_LENGTH,
        })
    }

    /// Writes an item at the file's end, by one write: the first 20 bytes of `item` become its key and
    /// the length of its value, which is the rest. Where it wasn't written, the track is as it was, but
    /// the file may be longer.
    pub fn append<V: Volume>(&mut self, volume: &mut V, item: &mut [u8]) -> Result<(), TrackEnd>
        requires end { V.tells → length (V.reads volume.old self.old.file) ≡ self.old.place }
        requires more { length self.old.places < self.old.facts.frames }
        requires room { 20 ≤ length item.old }
        requires size { length item.old < 20 + 2 ^ 24 }

        ensures item { item.new ≡ essence self.old.facts.kind (drop 20 item.old) }
        ensures appended { OnOk result ((values : List (List ℕ)) → HasValues self.old values
            → HasValues self.new (values ++ drop 20 item.old ∷ [])) }
        ensures written { V.tells → OnOk result ((values : List (List ℕ))
            → HasItems self.old values (V.reads volume.old self.old.file)
            → HasItems self.new (values ++ drop 20 item.old ∷ []) (V.reads volume.new self.old.file)) }
        ensures end_on { V.tells → OnOk result (length (V.reads volume.new self.old.file) ≡ self.new.place) }
        ensures put { OnOk result (V.put volume.new self.old.file
            ≡ counted (V.put volume.old self.old.file) (length item.old)) }

        ensures same_facts { self.new.facts ≡ self.old.facts }
        ensures same_file { self.new.file ≡ self.old.file }
        ensures one_more { OnOk result (length self.new.places ≡ length self.old.places + 1) }
        ensures unchanged { OnErr result (self.new ≡ self.old) }

        ensures ended { IfErr result (IsCause V.faults volume.old volume.new) }
        ensures untroubled { OnOk result (V.faults volume.new ≡ V.faults volume.old) }
        ensures beside { IsSameBeside (Only self.old.file) V.tells V.reads V.put V.faults V.history
            volume.old volume.new }
    {
        let (head, value) = item.split_at_mut(KEY_LENGTH);
        head.copy_from_slice(&key_length(item_key(&self.facts), value.len() as u32));
        volume.write(self.file, self.place, item)?;
        self.places.push(self.place)?;
        self.place += item.len() as u64;
        Ok(())
    }

    /// Writes the tail behind the items, then the head that knows the footer's place over the first
    /// one, and waits until the file is on the disk.
    pub fn finish<V: Volume>(self, alloc: Global, volume: &mut V) -> Result<(), TrackEnd>
        requires all { length self.places ≡ self.facts.frames }
        requires end { V.tells → length (V.reads volume.old self.file) ≡ self.place }

        ensures track { V.tells → OnOk result ((values : List (List ℕ))
            → HasItems self values (V.reads volume.old self.file)
            → V.reads volume.new self.file ≡ track self.facts values) }
        ensures at_rest { V.tells
            → OnOk result ((V.history volume.new).newest self.file ≡ at_rest (V.reads volume.new self.file)) }
        ensures put { OnOk result (V.put volume.new self.file
            ≡ counted (V.put volume.old self.file) (tail_size self.facts.frames + 16508)) }

        ensures ended { IfErr result (IsCause V.faults volume.old volume.new) }
        ensures untroubled { OnOk result (V.faults volume.new ≡ V.faults volume.old) }
        ensures beside { IsSameBeside (Only self.file) V.tells V.reads V.put V.faults V.history volume.old volume.new }
    {
        let tail = mxf_track::tail(alloc, &self.facts, &self.places, self.place)?;
        let head = mxf_header::head(alloc, &self.facts, self.place)?;
        volume.write(self.file, self.place, tail.as_slice())?;
        volume.write(self.file, 0, head.as_slice())?;
        volume.sync(self.file)?;
        Ok(())
    }
}
