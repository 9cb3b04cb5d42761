ghost use Rattle.std.specs.Prelude.{◌↔◌, IsTrue, IsFalse, ◌≡◌, ◌≢◌, ◌≤◌, ◌<◌, codes, [], true, false, map, length, All, AllPairs, IfOk, IfSome, option_map};
ghost use Rattle.film_project.specs.Accepts as spec;
ghost use Rattle.film_project.specs.Answers.{Answers, Refuses};
ghost use Rattle.film_project.specs.Members.{member_fault, members_fault, number_in, text_in};
ghost use Rattle.film_project.specs.Objects as table;
ghost use Rattle.film_project.specs.Facts.{nth_asset};
ghost use Rattle.film_project.specs.Rules.{IsAsset};
ghost use Rattle.film_project.specs.Texts as texts;
ghost use Rattle.film_project.specs.declared.asset.AssetKind.TheVariants.{Pcm24};
ghost use Rattle.film_project.specs.declared.text_rule.TextRule.TheVariants as rule;
ghost use Rattle.serde_json.specs.Find.{as_object};
ghost use Rattle.serde_json.specs.View.{view};

use crate::member::{read_number, read_optional, read_text};
use crate::names::name_member;
use crate::object::check_object;
use film_project::{Asset, AssetKind, Place, ProjectRefusal, TextRule};
use mast_base::{Bytes, List};
use serde_json::Value;
use std::alloc::Global;

/// The assets, whose ids differ.
pub(crate) fn read_assets(alloc: Global, items: &[Value]) -> Result<List<Asset>, ProjectRefusal>
    ensures answer { Answers result
        (spec.assets_fault 0 [] (map view items.now))
        (map spec.asset_in (map view items.now)) }
    ensures length { IfOk result (λ assets. length assets ≡ length items.now) }
    ensures kept { IfOk result (All IsAsset) }
    ensures distinct { IfOk result (AllPairs (λ a b. a.id ≢ b.id)) }
{
    let mut found = List::new(alloc);
    for (index, item) in items.iter().enumerate() {
        let asset = read_asset(alloc, item, index, found.as_slice())?;
        found.push(asset)?;
    }
    Ok(found)
}

fn read_asset(
    alloc: Global,
    value: &Value,
    index: usize,
    earlier: &[Asset],
) -> Result<Asset, ProjectRefusal>
    ensures answer { Answers result
        (spec.asset_fault index (map (λ a. a.id) earlier.now) (view value.now))
        (spec.asset_in (view value.now)) }
    ensures kept { IfOk result IsAsset }
    ensures new { IfOk result (λ asset. All (λ a. a.id ≢ asset.id) earlier.now) }
{
    let place = Place::Asset(index);
    check_asset(alloc, value, place)?;
    let members = read_members(alloc, value, place)?;
    if has_id(earlier, members.id.as_bytes()) {
        return Err(ProjectRefusal::DoubleAsset {
            name: name_member(alloc, place, "id")?,
        });
    }
    Ok(Asset {
        id: Bytes::copy_of(alloc, members.id.as_bytes())?,
        kind: members.kind,
        file: Bytes::copy_of(alloc, members.file.as_bytes())?,
        channels: members.channels,
    })
}

fn check_asset(alloc: Global, value: &Value, place: Place) -> Result<(), ProjectRefusal>
    ensures { Refuses result
        (table.shape_fault place (texts.is_one_of (table.names_of (table.asset_members (view value.now)))) (as_object (view value.now))) }
{
    check_object(alloc, value, place, &["id", "kind", "file", "channels"])
}

#[derive(Clone, Copy)]
struct Members<'v> {
    id: &'v str,
    kind: AssetKind,
    file: &'v str,
    channels: u8,
}

fn read_members<'v>(
    alloc: Global,
    value: &'v Value,
    place: Place,
) -> Result<Members<'v>, ProjectRefusal>
    ensures refuses { Refuses result
        (members_fault place (view value.now) (table.asset_members (view value.now))) }
    ensures id { IfOk result (λ m. m.id.now ≡ text_in (codes "id") (view value.now)) }
    ensures kind { IfOk result (λ m. m.kind ≡ table.kind_in (view value.now)) }
    ensures file { IfOk result (λ m. m.file.now ≡ text_in (codes "file") (view value.now)) }
    ensures channels { IfOk result
        (λ m. m.channels ≡ number_in (codes "channels") 0 (view value.now)) }
    ensures id_kept { IfOk result (λ m. IsTrue (texts.keeps rule.Id m.id.now)) }
    ensures file_kept { IfOk result (λ m. IsTrue (texts.keeps rule.File m.file.now)) }
    ensures most_channels { IfOk result (λ m. m.channels ≤ 16) }
    ensures some_channels { IfOk result (λ m. m.kind ≡ Pcm24 → 1 ≤ m.channels) }
    ensures no_channels { IfOk result (λ m. m.kind ≢ Pcm24 → m.channels ≡ 0) }
{
    let id = read_text(alloc, value, place, "id", TextRule::Id)?;
    let word = read_text(alloc, value, place, "kind", TextRule::AssetKind)?;
    let file = read_text(alloc, value, place, "file", TextRule::File)?;
    let kind = asset_kind(word);
    let channels = read_channels(alloc, value, place, carries_sound(kind))?;
    Ok(Members {
        id,
        kind,
        file,
        channels: channels as u8,
    })
}

fn asset_kind(word: &str) -> AssetKind
    ensures { result ≡ table.asset_kind word.now }
{
    if word == "pcm24" {
        AssetKind::Pcm24
    } else if word == "j2c" {
        AssetKind::J2c
    } else if word == "ppm" {
        AssetKind::Ppm
    } else {
        AssetKind::Rgb48
    }
}

/// The asset holds sound.
pub(crate) fn carries_sound(kind: AssetKind) -> bool
    ensures value { result ≡ table.carries_sound kind }
    ensures sound { IsTrue result ↔ (kind ≡ Pcm24) }
{
    match kind {
        AssetKind::Pcm24 => true,
        AssetKind::Rgb48 | AssetKind::Ppm | AssetKind::J2c => false,
    }
}

fn read_channels(
    alloc: Global,
    value: &Value,
    place: Place,
    sound: bool,
) -> Result<u64, ProjectRefusal>
    ensures answer { Answers result
        (member_fault place (view value.now) (table.channel_member sound))
        (number_in (codes "channels") 0 (view value.now)) }
    ensures some { IfOk result (λ n. sound ≡ true → 1 ≤ n) }
    ensures none { IfOk result (λ n. sound ≡ false → n ≡ 0) }
    ensures most { IfOk result (λ n. n ≤ 16) }
{
    if sound {
        read_number(alloc, value, place, "channels", 1, 16)
    } else {
        read_optional(alloc, value, place, "channels", 0, 0, 0)
    }
}

fn has_id(assets: &[Asset], id: &[u8]) -> bool
    ensures value { result ≡ texts.is_one_of (map (λ a. a.id) assets.now) id.now }
    ensures absent { IsFalse result → All (λ a. a.id ≢ id.now) assets.now }
{
    for asset in assets {
        if asset.id.as_slice() == id {
            return true;
        }
    }
    false
}

/// The first asset of that id, and its place.
pub(crate) fn find_asset<'a>(assets: &'a [Asset], id: &[u8]) -> Option<(usize, &'a Asset)>
    ensures first { option_map (λ p. (p.0, p.1.now)) result
        ≡ spec.find_asset id.now 0 assets.now }
    ensures within { IfSome result (λ p. p.0 < length assets.now) }
    ensures asset { IfSome result
        (λ p. nth_asset assets.now p.0 ≡ p.1.now) }
{
    for (index, asset) in assets.iter().enumerate() {
        if asset.id.as_slice() == id {
            return Some((index, asset));
        }
    }
    None
}
