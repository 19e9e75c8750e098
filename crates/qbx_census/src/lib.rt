// The segments in use of an image and their slots by kind, counted.
#![tactic(auto)]

ghost use Rattle.std.specs.Prelude.{◌≡◌, ◌+◌, ◌*◌, ◌<◌, ◌≤◌, length, get_or};
ghost use Rattle.model.specs.State.{blank, segments_of};
ghost use Rattle.flash.specs.Pages.{Sized};
ghost use Rattle.judge.specs.Rows.{kinds_at};
ghost use Rattle.qbx_census.specs.Census.{set_aside, total, counted, count_kinds, count_segment, census_of};

use model::{Geometry, SlotKind};

// Segments in use, and their slots by kind.
#[derive(Clone, Copy)]
pub struct Census {
    pub segments: u64,
    pub live: u64,
    pub dead: u64,
    pub cut: u64,
    pub empty: u64,
}

// One slot more.
#[tactic(auto, unfolding(crate::specs::Census::counted))]
fn count(census: Census, kind: SlotKind) -> Census
    requires { total census ≤ 1000000 }
    ensures { result ≡ counted census kind }
{
    match kind {
        SlotKind::Empty => Census {
            empty: census.empty + 1,
            ..census
        },
        SlotKind::Torn => census,
        SlotKind::Live { .. } => Census {
            live: census.live + 1,
            ..census
        },
        SlotKind::Dead => Census {
            dead: census.dead + 1,
            ..census
        },
        SlotKind::Cut => Census {
            cut: census.cut + 1,
            ..census
        },
        SlotKind::Wrong => census,
    }
}

// The slots of a segment, from the offset of the first one.
fn count_slots(image: &[u8], at: usize, slots: usize, census: Census) -> Census
    requires { (at + slots * 256 ≤ length image.now) × (slots ≤ 255) × (total census ≤ 100000) }
    ensures { (result ≡ count_kinds census (kinds_at image.now at slots)) × (total result ≤ total census + slots) }
{
    let mut sum = census;
    for i in 0..slots {
        let a = at + i * 256;
        let e = a + 256;
        sum = count(sum, slot::slot_kind(&image[a..e]));
    }
    sum
}

// One segment more, if it is in use.
fn count_segment(image: &[u8], geometry: Geometry, index: usize, census: Census) -> Census
    requires { Sized geometry.segments geometry.slots (length image.now) × (index < geometry.segments) × (total census ≤ 90000) }
    ensures { (result ≡ count_segment census (get_or (segments_of geometry.segments geometry.slots image.now) index blank)) × (total result ≤ total census + 256) }
{
    let at = index * (geometry.slots + 1) * 256;
    let first = at + 256;
    let Some(_) = header_seen::see_header(&image[at..first], geometry, index) else {
        return census;
    };
    let more = Census {
        segments: census.segments + 1,
        ..census
    };
    count_slots(image, first, geometry.slots, more)
}

// Every segment but the one left aside.
pub fn take_census(image: &[u8], geometry: Geometry, aside: usize) -> Census
    requires { Sized geometry.segments geometry.slots (length image.now) }
    ensures { result ≡ census_of (set_aside aside (segments_of geometry.segments geometry.slots image.now)) }
{
    let mut census = Census {
        segments: 0,
        live: 0,
        dead: 0,
        cut: 0,
        empty: 0,
    };
    for i in 0..geometry.segments {
        if i != aside {
            census = count_segment(image, geometry, i, census);
        }
    }
    census
}
