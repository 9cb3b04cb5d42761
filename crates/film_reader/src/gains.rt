ghost use Rattle.std.specs.Prelude.{◌≡◌, ◌≢◌, ◌≤◌, ◌<◌, codes, Some, map, option_map, length, All, IfOk};
ghost use Rattle.film_project.specs.Answers.{Answers, AnswersAs};
ghost use Rattle.film_project.specs.Rules.{FitsGain};
ghost use Rattle.film_reader.specs.Gains.{raw_facts};
ghost use Rattle.film_project.specs.Members as spec;
ghost use Rattle.film_project.specs.Members.{first_of, gain_kind_fault, gain_range_fault, gain_of, gains_fault, list_in, member_fault};
ghost use Rattle.film_project.specs.Names.{member_name, item_name};
ghost use Rattle.film_project.specs.Objects.{required};
ghost use Rattle.film_project.specs.declared.refusal.ProjectRefusal.TheVariants.{NoMemory, OutOfRange};
ghost use Rattle.serde_json.specs.View.{view};

use crate::member::{as_list, find_member, out_of_range};
use crate::names::{name_item, name_member};
use film_project::{Gain, Place, ProjectRefusal};
use mast_base::List;
use serde_json::Value;
use std::alloc::Global;

/// Three numbers whose ranges are not known yet.
#[derive(Clone, Copy)]
pub(crate) struct RawGain {
    pub from: u64,
    pub to: u64,
    pub gain: u64,
}

/// The gains of a sound clip, whose asset has `inputs` channels, in a project of `outputs` channels.
pub(crate) fn read_gains(
    alloc: Global,
    clip: &Value,
    place: Place,
    inputs: u64,
    outputs: u64,
) -> Result<List<Gain>, ProjectRefusal>
    requires inputs { inputs ≤ 16 }
    requires outputs { outputs ≤ 16 }
    ensures answer { Answers result
        (member_fault place (view clip.now) (required (codes "gains") (spec.gains inputs outputs)))
        (map gain_of (list_in (codes "gains") (view clip.now))) }
    ensures most { IfOk result (λ gains. length gains ≤ 256) }
    ensures fits { IfOk result (All (FitsGain inputs outputs)) }
{
    let value = find_member(alloc, clip, place, "gains")?;
    let Some(items) = as_list(value) else {
        return Err(ProjectRefusal::WrongKind {
            name: name_member(alloc, place, "gains")?,
        });
    };
    read_gain_list(alloc, place, items, inputs, outputs)
}

fn read_gain_list(
    alloc: Global,
    place: Place,
    items: &[Value],
    inputs: u64,
    outputs: u64,
) -> Result<List<Gain>, ProjectRefusal>
    requires inputs { inputs ≤ 16 }
    requires outputs { outputs ≤ 16 }
    ensures answer { Answers result
        (gains_fault (member_name place (codes "gains")) inputs outputs (Some (map view items.now)))
        (map gain_of (map view items.now)) }
    ensures most { IfOk result (λ gains. length gains ≤ 256) }
    ensures fits { IfOk result (All (FitsGain inputs outputs)) }
{
    let raw = read_raw_gains(alloc, place, items)?;
    if items.len() > 256 {
        return Err(out_of_range(alloc, place, "gains", items.len() as u64));
    }
    read_ranges(alloc, place, &raw, inputs, outputs)
}

/// Each item, which has to be a list of three numbers.
fn read_raw_gains(
    alloc: Global,
    place: Place,
    items: &[Value],
) -> Result<Vec<RawGain>, ProjectRefusal>
    ensures answer { AnswersAs (λ raw. map raw_facts raw.items) result
        (first_of (gain_kind_fault (member_name place (codes "gains"))) 0 (map view items.now))
        (map gain_of (map view items.now)) }
    ensures length { IfOk result (λ raw. length raw.items ≡ length items.now) }
{
    let mut found = Vec::with_capacity(alloc, items.len())?;
    for (index, item) in items.iter().enumerate() {
        let Some(raw) = as_gain(item) else {
            return Err(ProjectRefusal::WrongKind {
                name: name_item(alloc, place, "gains", index)?,
            });
        };
        found.push(raw)?;
    }
    Ok(found)
}

fn as_gain(value: &Value) -> Option<RawGain>
    ensures { option_map raw_facts result ≡ spec.as_gain (view value.now) }
{
    match as_list(value) {
        Some([from, to, gain]) => raw_gain(from.as_u64(), to.as_u64(), gain.as_u64()),
        _ => None,
    }
}

fn raw_gain(from: Option<u64>, to: Option<u64>, gain: Option<u64>) -> Option<RawGain>
    ensures { option_map raw_facts result ≡ spec.gain_from from to gain }
{
    Some(RawGain {
        from: from?,
        to: to?,
        gain: gain?,
    })
}

fn read_ranges(
    alloc: Global,
    place: Place,
    raw: &[RawGain],
    inputs: u64,
    outputs: u64,
) -> Result<List<Gain>, ProjectRefusal>
    requires inputs { inputs ≤ 16 }
    requires outputs { outputs ≤ 16 }
    ensures answer { Answers result
        (first_of (gain_range_fault (member_name place (codes "gains")) inputs outputs) 0 (map raw_facts raw.now))
        (map raw_facts raw.now) }
    ensures length { IfOk result (λ gains. length gains ≡ length raw.now) }
    ensures fits { IfOk result (All (FitsGain inputs outputs)) }
{
    let mut found = List::new(alloc);
    for (index, item) in raw.iter().enumerate() {
        found.push(read_range(alloc, place, index, *item, inputs, outputs)?)?;
    }
    Ok(found)
}

fn read_range(
    alloc: Global,
    place: Place,
    index: usize,
    raw: RawGain,
    inputs: u64,
    outputs: u64,
) -> Result<Gain, ProjectRefusal>
    requires inputs { inputs ≤ 16 }
    requires outputs { outputs ≤ 16 }
    ensures answer { Answers result
        (gain_range_fault (member_name place (codes "gains")) inputs outputs index (raw_facts raw))
        (raw_facts raw) }
    ensures fits { IfOk result (FitsGain inputs outputs) }
{
    if raw.from >= inputs {
        return Err(item_out_of_range(alloc, place, index, raw.from));
    }
    if raw.to >= outputs {
        return Err(item_out_of_range(alloc, place, index, raw.to));
    }
    if raw.gain > 262_144 {
        return Err(item_out_of_range(alloc, place, index, raw.gain));
    }
    Ok(Gain {
        from: raw.from as u8,
        to: raw.to as u8,
        gain: raw.gain as u32,
    })
}

fn item_out_of_range(alloc: Global, place: Place, index: usize, value: u64) -> ProjectRefusal
    ensures { result ≢ NoMemory
        → result ≡ OutOfRange (item_name (member_name place (codes "gains")) index) value }
{
    match name_item(alloc, place, "gains", index) {
        Ok(name) => ProjectRefusal::OutOfRange { name, value },
        Err(_) => ProjectRefusal::NoMemory,
    }
}
