//! Copies of a project and of its parts.
ghost use Rattle.std.specs.Prelude.{◌≡◌, IfOk};
ghost use Rattle.film_project.specs.Rules.{IsProject};

use crate::asset::Asset;
use crate::clip::SoundClip;
use crate::project::Project;
use mast_base::{Bytes, List, NoMemory};
use std::alloc::Global;

impl Project {
    /// A copy in memory of its own.
    pub fn copy(&self, alloc: Global) -> Result<Self, NoMemory>
        ensures same { IfOk result (λ copy. copy ≡ self.now) }
        ensures rules { IfOk result IsProject }
    {
        let assets = copy_assets(alloc, self.assets.as_slice())?;
        let sound = copy_sound(alloc, self.sound.as_slice())?;
        Ok(Project {
            title: Bytes::copy_of(alloc, self.title.as_slice())?,
            kind: Bytes::copy_of(alloc, self.kind.as_slice())?,
            issued: Bytes::copy_of(alloc, self.issued.as_slice())?,
            namespace: self.namespace,
            width: self.width,
            height: self.height,
            fps: self.fps,
            rate: self.rate,
            power: self.power,
            channels: self.channels,
            frames: self.frames,
            assets,
            picture: List::from(self.picture.as_slice().to_vec(alloc)?),
            sound,
        })
    }
}

fn copy_assets(alloc: Global, assets: &[Asset]) -> Result<List<Asset>, NoMemory>
    ensures { IfOk result (λ copy. copy ≡ assets.now) }
{
    let mut copies = Vec::with_capacity(alloc, assets.len())?;
    for asset in assets {
        copies.push(copy_asset(alloc, asset)?)?;
    }
    Ok(List::from(copies))
}

fn copy_asset(alloc: Global, asset: &Asset) -> Result<Asset, NoMemory>
    ensures { IfOk result (λ copy. copy ≡ asset.now) }
{
    Ok(Asset {
        id: Bytes::copy_of(alloc, asset.id.as_slice())?,
        kind: asset.kind,
        file: Bytes::copy_of(alloc, asset.file.as_slice())?,
        channels: asset.channels,
    })
}

fn copy_sound(alloc: Global, clips: &[SoundClip]) -> Result<List<SoundClip>, NoMemory>
    ensures { IfOk result (λ copy. copy ≡ clips.now) }
{
    let mut copies = Vec::with_capacity(alloc, clips.len())?;
    for clip in clips {
        copies.push(copy_sound_clip(alloc, clip)?)?;
    }
    Ok(List::from(copies))
}

fn copy_sound_clip(alloc: Global, clip: &SoundClip) -> Result<SoundClip, NoMemory>
    ensures { IfOk result (λ copy. copy ≡ clip.now) }
{
    Ok(SoundClip {
        asset: clip.asset,
        at: clip.at,
        from: clip.from,
        count: clip.count,
        gains: List::from(clip.gains.as_slice().to_vec(alloc)?),
    })
}
