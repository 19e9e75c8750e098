// The partitions of a board with the older partition format (request #109): how many there may be, and which is the newest.
#![tactic(auto)]

ghost use Rattle.std.specs.Prelude.{◌≡◌, ◌&&◌, not, ◌*◌, ◌≤◌, ◌<◌, length, eqb};
ghost use Rattle.partitions.specs.Partitions.{partitions_ok, no_status, next_status, status_of, next_partition, newest_in};
ghost use Rattle.partition_status.specs.Said.{said};

// The status byte of a partition that has none yet.
const NO_STATUS: u8 = 255;

// Statuses run from 0 up to the last before NO_STATUS.
const STATUSES: u16 = 255;

// The statuses are no single run.
#[derive(Clone, Copy)]
pub struct NoRun;

// Whether a board may have so many partitions.
#[tactic(auto, unfolding(partitions::specs::Partitions::partitions_ok, model::specs::Sequences::among))]
pub fn partitions_ok(partitions: usize) -> bool
    ensures { result ≡ partitions_ok partitions }
{
    matches!(partitions, 2 | 4 | 8 | 16 | 32 | 64 | 128)
}

// The status that follows another. It is found in 16 bits: one more than a byte may be no byte.
pub fn next_status(status: u8) -> u8
    ensures { result ≡ next_status status }
{
    ((u16::from(status) + 1) % STATUSES) as u8
}

// The partition that follows another, the first following the last.
pub fn next_partition(partitions: usize, partition: usize) -> usize
    requires { partition < partitions }
    ensures { result ≡ next_partition partitions partition }
{
    let next = partition + 1;
    if next == partitions {
        return 0;
    }
    next
}

// The status of a partition of so many bytes, which is its first byte.
pub fn status_of(image: &[u8], size: usize, partition: usize) -> u8
    requires { partition * size < length image.now }
    ensures { result ≡ status_of size image.now partition }
{
    image[partition * size]
}

// Whether a run of statuses ends with a partition: it has one, and the next partition's does not follow it.
fn ends_run(status: u8, next: u8) -> bool
    ensures { result ≡ not (eqb status no_status) && not (eqb next (next_status status)) }
{
    if status == NO_STATUS {
        return false;
    }
    next != next_status(status)
}

// Which partition is the newest, if any has a status. A run's last is where a run ends; a second end is one of a second run.
// Where no run ends, all partitions have a status or none has: then the first tells, which is the last to be looked at. That the
// offset goes round inside the loop is for speed: with 128 partitions 4 KiB apart, as measured, loads that follow each other
// closer take longer.
pub fn find_newest(image: &[u8], partitions: usize, size: usize) -> Result<Option<usize>, NoRun>
    requires { (0 < size) × (partitions * size ≤ length image.now) }
    ensures { said result ≡ newest_in partitions size image.now }
{
    if partitions == 0 {
        return Ok(None);
    }
    let highest = partitions - 1;
    let mut newest = None;
    let mut status = image[0];
    let mut at = 0;
    for partition in 0..partitions {
        at += size;
        if partition == highest {
            at = 0;
        }
        let next = image[at];
        if ends_run(status, next) {
            if newest.is_some() {
                return Err(NoRun);
            }
            newest = Some(partition);
        }
        status = next;
    }
    if newest.is_none() && status != NO_STATUS {
        return Err(NoRun);
    }
    Ok(newest)
}
