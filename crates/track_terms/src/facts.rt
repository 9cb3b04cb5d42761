ghost use Rattle.std.specs.Prelude.{◌≡◌, IfOk};

use crate::kind::TrackKind;
use film_project::Project;
use mast_base::{Bytes, NoMemory};
use std::alloc::Global;
use std::marker::Model;

/// What the bytes around the items of a track file depend on.
#[derive(Debug, Drop)]
pub struct TrackFacts {
    pub kind: TrackKind,
    /// The name of the file, such as `picture-1.mxf`.
    pub name: Bytes,
    /// The UUID under which the file's own identifiers are made.
    pub namespace: [u8; 16],
    /// The UUID of the track as an asset of its package.
    pub asset: [u8; 16],
    /// The date of issue in UTC, as `2024-05-01T12:00:00`.
    pub issued: Bytes,
    /// Frames a second.
    pub fps: u8,
    /// How many items the file has: one for each frame.
    pub frames: u32,
    pub width: u16,
    pub height: u16,
    /// The channels of sound.
    pub channels: u8,
}

impl Model for TrackFacts {
    ghost use Rattle.track_terms.specs.Facts.{PlainFacts};

    ghost Value = { PlainFacts };

    ghost use Rattle.track_terms.specs.Facts.{IsTrack};
    ghost use Rattle.track_terms.specs.Views.{facts_of};

    ghost view = { facts_of };

    ghost invariant = { λ facts. IsTrack (facts_of facts) };
}

impl TrackFacts {
    ghost use Rattle.track_terms.specs.Facts.{of_project};

    /// Those of a track in the package of a project.
    pub fn of_project(
        alloc: Global,
        project: &Project,
        kind: TrackKind,
        name: &[u8],
        asset: &[u8; 16],
    ) -> Result<Self, NoMemory>
        ensures { IfOk result (λ facts. facts ≡ of_project project.now kind name.now asset.now) }
    {
        Ok(TrackFacts {
            kind,
            name: Bytes::copy_of(alloc, name)?,
            namespace: project.namespace,
            asset: *asset,
            issued: Bytes::copy_of(alloc, project.issued.as_slice())?,
            fps: project.fps,
            frames: project.frames,
            width: project.width,
            height: project.height,
            channels: project.channels,
        })
    }
}
