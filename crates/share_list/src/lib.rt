// A list of shares for tenants (request #110): three numbers for each, the first and the last of its block numbers, and how
// many of them it may have stored. Nothing is required of who made the list: it is tested at every request.
#![tactic(auto)]

ghost use Rattle.std.specs.Prelude.{◌≡◌, true, ◌&&◌, ◌+◌, ◌-◌, ◌*◌, ◌≤◌, ◌<◌, length, leb};
ghost use Rattle.model.specs.Lists.{all};
ghost use Rattle.model.specs.Slot.{number_ok};
ghost use Rattle.shares.specs.Shares.{shares_of, range_ok, overlap, disjoint, quota_sum, shares_within, is_tenant, share_of, owns};
ghost use Rattle.share_list.specs.Places.{most_numbers, Stands, share_at, clear_of, share_in};

use model::BlockNumber;

// Three numbers for each of 40 tenants.
const MOST_NUMBERS: usize = 120;

// A tenant's share, its range as block numbers.
#[derive(Clone, Copy)]
pub struct Part {
    pub first: BlockNumber,
    pub last: BlockNumber,
    pub quota: usize,
}

// ---- whether a list is right

// Whether two numbers make a range of block numbers.
fn range_ok(first: u32, last: u32) -> bool
    ensures { result ≡ (number_ok first && (number_ok last && leb first last)) }
{
    if first == 0 {
        return false;
    }
    if first > last {
        return false;
    }
    last < 65535
}

// Whether every range is one.
fn ranges_ok(shares: &[u32]) -> bool
    requires { Stands shares.now 0 }
    ensures { result ≡ all range_ok (shares_of shares.now) }
{
    for at in (0..shares.len()).step_by(3) {
        if !range_ok(shares[at], shares[at + 1]) {
            return false;
        }
    }
    true
}

// Whether a number is in both of two ranges.
fn overlaps(shares: &[u32], one: usize, other: usize) -> bool
    requires { (one + 3 ≤ length shares.now) × (other + 3 ≤ length shares.now) }
    ensures { result ≡ overlap (share_at shares.now one) (share_at shares.now other) }
{
    if shares[one] > shares[other + 1] {
        return false;
    }
    shares[other] <= shares[one + 1]
}

// Whether a range overlaps none of those behind it.
fn apart(shares: &[u32], one: usize) -> bool
    requires { Stands shares.now one × (one < length shares.now) }
    ensures { result ≡ clear_of shares.now one (one + 3) }
{
    for other in (one + 3..shares.len()).step_by(3) {
        if overlaps(shares, one, other) {
            return false;
        }
    }
    true
}

// Whether no number is in two ranges.
fn all_apart(shares: &[u32]) -> bool
    requires { Stands shares.now 0 }
    ensures { result ≡ disjoint (shares_of shares.now) }
{
    for at in (0..shares.len()).step_by(3) {
        if !apart(shares, at) {
            return false;
        }
    }
    true
}

// All quotas together, which may be more than their 32 bits hold.
fn quota_sum(shares: &[u32]) -> u64
    requires { Stands shares.now 0 × (length shares.now ≤ most_numbers) }
    ensures { result ≡ quota_sum (shares_of shares.now) }
{
    let mut sum: u64 = 0;
    for at in (0..shares.len()).step_by(3) {
        sum += shares[at + 2] as u64;
    }
    sum
}

// Whether a list of shares is right, with so many blocks to share.
pub fn shares_ok(shares: &[u32], most: usize) -> bool
    ensures { result ≡ shares_within most shares.now }
{
    if shares.len() % 3 != 0 {
        return false;
    }
    if shares.len() > MOST_NUMBERS {
        return false;
    }
    if !ranges_ok(shares) {
        return false;
    }
    if !all_apart(shares) {
        return false;
    }
    quota_sum(shares) <= most as u64
}

// ---- tenants, from 1

// Whether the list has this tenant.
fn is_tenant(shares: &[u32], tenant: u32) -> bool
    ensures { result ≡ is_tenant (shares_of shares.now) tenant }
{
    if tenant < 1 {
        return false;
    }
    tenant as usize <= shares.len() / 3
}

// Where a tenant's three numbers begin.
fn place_of(tenant: u32) -> usize
    requires { 0 < tenant }
    ensures { result ≡ (tenant - 1) * 3 }
{
    (tenant as usize - 1) * 3
}

// Whether a block is a tenant's.
pub fn owns(shares: &[u32], tenant: u32, block: BlockNumber) -> bool
    ensures { result ≡ owns (shares_of shares.now) tenant block.0 }
{
    if !is_tenant(shares, tenant) {
        return false;
    }
    let at = place_of(tenant);
    let number = block.0 as u32;
    if number < shares[at] {
        return false;
    }
    number <= shares[at + 1]
}

// A tenant's share.
pub fn share_of(shares: &[u32], tenant: u32) -> Part
    requires { (all range_ok (shares_of shares.now) ≡ true) × (is_tenant (shares_of shares.now) tenant ≡ true) }
    ensures { share_in result ≡ share_of (shares_of shares.now) tenant }
{
    let at = place_of(tenant);
    let first = shares[at] as u16;
    let last = shares[at + 1] as u16;
    let quota = shares[at + 2] as usize;
    Part {
        first: BlockNumber(first),
        last: BlockNumber(last),
        quota,
    }
}
