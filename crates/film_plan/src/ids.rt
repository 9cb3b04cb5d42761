ghost use Rattle.std.specs.Prelude.{◌≡◌};
ghost use Rattle.film_plan.specs.Plan as spec;

use film_project::Project;
use uuid::Uuid;

/// The identifiers of the package's parts: version 5 UUIDs (RFC 9562 section 5.5) under the
/// project's namespace.
#[derive(Clone, Copy, Debug, PartialEq, Eq)]
pub struct Ids {
    /// The composition playlist's.
    pub cpl: [u8; 16],
    /// The packing list's.
    pub pkl: [u8; 16],
    /// The asset map's.
    pub map: [u8; 16],
    pub reel: [u8; 16],
    pub picture: [u8; 16],
    pub sound: [u8; 16],
}

pub(crate) fn ids_of(project: &Project) -> Ids
    ensures { result ≡ spec.ids_of project.now }
{
    Ids {
        cpl: id_of(project, b"cpl"),
        pkl: id_of(project, b"pkl"),
        map: id_of(project, b"map"),
        reel: id_of(project, b"reel-1"),
        picture: id_of(project, b"picture-1"),
        sound: id_of(project, b"sound-1"),
    }
}

fn id_of(project: &Project, name: &[u8]) -> [u8; 16]
    ensures { result ≡ spec.id_of project.now name.now }
{
    Uuid::new_v5(&Uuid::from_bytes(project.namespace), name).into_bytes()
}
