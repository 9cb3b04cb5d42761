ghost use Rattle.std.specs.Prelude.{◌≡◌, ◌<◌, IfOk, length};
ghost use Rattle.film_project.specs.Facts.{asset_at};
ghost use Rattle.frame_values.specs.Shown.{file_of};

use film_project::{Asset, AssetKind, Project};
use frame_files::{FrameFormat, frame_name};
use mast_base::Bytes;
use std::alloc::{AllocError, Global};

/// The asset at this place.
pub(crate) fn asset_at(project: &Project, place: u32) -> &Asset
    requires { place < length project.now.assets }
    ensures { result.now ≡ asset_at project.now place }
{
    &project.assets.as_slice()[place as usize]
}

/// The file in which the asset's frame of this index is.
pub(crate) fn file_of(alloc: Global, asset: &Asset, index: u32) -> Result<Bytes, AllocError>
    ensures { IfOk result (λ name. name ≡ file_of asset.now index) }
{
    let file = asset.file.as_slice();
    match asset.kind {
        AssetKind::J2c => frame_name(alloc, file, index, FrameFormat::J2c),
        AssetKind::Ppm => frame_name(alloc, file, index, FrameFormat::Ppm),
        AssetKind::Rgb48 | AssetKind::Pcm24 => Bytes::copy_of(alloc, file),
    }
}
