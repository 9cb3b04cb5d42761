ghost use Rattle.std.specs.Prelude.{◌≡◌, ◌≤◌};
ghost use Rattle.pcm_mix.specs.Mix.{samples_of};

use film_project::Project;

/// The samples of a frame in each channel.
pub(crate) fn samples_of(project: &Project) -> usize
    ensures value { result ≡ samples_of project.now }
    ensures few { result ≤ 2000 }
{
    48_000 / usize::from(project.fps)
}
