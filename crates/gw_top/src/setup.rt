//! What a run makes before it listens, and its workers once there are wires.

ghost use Rattle.std.specs.Prelude.{◌≡◌, ◌≤◌, [], length, vec_capacity};
ghost use Rattle.gw_top.specs.Crew.{jobs_of};

use crate::crew::Job;
use crate::house::Place;
use crate::worker::Worker;
use gw_wire::Wire;

/// A worker for each wire, at the place of its number.
pub(crate) fn make_jobs<W: Wire>(
    mut places: Vec<Place>,
    mut wires: Vec<W>,
    mut jobs: Vec<Job<W>>,
) -> Vec<Job<W>>
    requires count { length wires.items ≡ length places.items }
    requires few { length places.items ≤ 64 }
    requires room { length places.items ≤ vec_capacity jobs }
    requires nobody { jobs.items ≡ [] }
    ensures { result.items ≡ jobs_of 0 places.items wires.items }
{
    let count = places.len() as u32;
    for number in 0..count {
        let worker = Worker {
            number,
            wire: wires.remove(0),
            entered: 0,
            unkept: 0,
            accept_failed: false,
        };
        jobs.push_reserved(Job {
            worker,
            place: places.remove(0),
        });
    }
    jobs
}
