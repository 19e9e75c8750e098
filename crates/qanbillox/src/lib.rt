// The library's exports to C and Rust: the requests, with a table of places too, the blank test, the account, the move to
// another chip, salvage, requests by tenant and the older partition format, with what comes back packed into one number.
#![tactic(auto)]

ghost use Rattle.std.specs.Prelude.{◌≡◌, length};
ghost use Rattle.model.specs.Answers.{outcome_of, read_outcome, format, put, delete, recover};
ghost use Rattle.model.specs.Mounted.{mount_outcome, MountedPut, MountedDelete, MountedRead};
ghost use Rattle.moves.specs.Moves.{move_outcome};
ghost use Rattle.text.specs.Buffer.{print_in};
ghost use Rattle.account_text.specs.Account.{account_text};
ghost use Rattle.salvage.specs.Salvage.{salvage_outcome, rebuild_outcome};
ghost use Rattle.shares.specs.Layer.{puts, deletes, reads, share_outcome, gave_in};
ghost use Rattle.partitions.specs.Answers as settings;
ghost use Rattle.qanbillox.specs.Packed.{Gives, packed_read, packed_spot, Allows, AllowsRead, Mounts, packed_blank, Prints, Serves};

use model::BlockNumber;

#[unsafe(no_mangle)]
pub extern "C" fn qbx_format(image: &mut [u8], n: usize, b: usize, budget: u64) -> u64
    ensures { Gives (outcome_of n b image.old budget format) result image.new }
{
    packing::packed(store::format(image, n, b, budget))
}

#[unsafe(no_mangle)]
pub extern "C" fn qbx_put(
    image: &mut [u8],
    n: usize,
    b: usize,
    block: u16,
    contents: &[u8],
    budget: u64,
) -> u64
    ensures { Gives (outcome_of n b image.old budget (put block contents.now)) result image.new }
{
    packing::packed(store::put(image, n, b, BlockNumber(block), contents, budget))
}

#[unsafe(no_mangle)]
pub extern "C" fn qbx_delete(image: &mut [u8], n: usize, b: usize, block: u16, budget: u64) -> u64
    ensures { Gives (outcome_of n b image.old budget (delete block)) result image.new }
{
    packing::packed(store::delete(image, n, b, BlockNumber(block), budget))
}

#[unsafe(no_mangle)]
pub extern "C" fn qbx_recover(image: &mut [u8], n: usize, b: usize, budget: u64) -> u64
    ensures { Gives (outcome_of n b image.old budget recover) result image.new }
{
    packing::packed(store::recover(image, n, b, budget))
}

#[unsafe(no_mangle)]
pub extern "C" fn qbx_read(image: &[u8], n: usize, b: usize, block: u16) -> u64
    ensures { result ≡ packed_read (read_outcome n b image.now block) }
{
    packing::packed_read(store::read(image, n, b, BlockNumber(block)))
}

#[unsafe(no_mangle)]
pub extern "C" fn qbx_is_blank(bytes: &[u8]) -> u64
    ensures { result ≡ packed_blank bytes.now }
{
    packing::packed_blank(blank::blank_test(bytes))
}

#[unsafe(no_mangle)]
pub extern "C" fn qbx_account(image: &[u8], n: usize, b: usize, text: &mut [u8]) -> u64
    ensures { Prints (print_in (account_text n b image.now) text.old) result text.new }
{
    packing::packed_print(accounts::account(image, n, b, text))
}

#[unsafe(no_mangle)]
pub extern "C" fn qbx_mount(image: &[u8], n: usize, b: usize, table: &mut [u32]) -> u64
    ensures { Mounts (mount_outcome n b image.now table.old) result table.new }
{
    request::number_of(mounting::mount(image, n, b, table))
}

#[unsafe(no_mangle)]
pub extern "C" fn qbx_mounted_put(
    image: &mut [u8],
    n: usize,
    b: usize,
    table: &mut [u32],
    block: u16,
    contents: &[u8],
    budget: u64,
) -> u64
    ensures { Allows (λ o. MountedPut n b block contents.now budget o image.old table.old table.new) result image.new }
{
    packing::packed_mounted(mounted::put(image, n, b, table, BlockNumber(block), contents, budget))
}

#[unsafe(no_mangle)]
pub extern "C" fn qbx_mounted_delete(
    image: &mut [u8],
    n: usize,
    b: usize,
    table: &mut [u32],
    block: u16,
    budget: u64,
) -> u64
    ensures { Allows (λ o. MountedDelete n b block budget o image.old table.old table.new) result image.new }
{
    packing::packed_mounted(mounted::delete(image, n, b, table, BlockNumber(block), budget))
}

#[unsafe(no_mangle)]
pub extern "C" fn qbx_mounted_read(
    image: &[u8],
    n: usize,
    b: usize,
    table: &[u32],
    block: u16,
) -> u64
    ensures { AllowsRead (λ o. MountedRead n b block o image.now table.now) result }
{
    packing::packed_read(mounted_read::read(image, n, b, table, BlockNumber(block)))
}

#[unsafe(no_mangle)]
pub extern "C" fn qbx_move(
    source: &[u8],
    n: usize,
    b: usize,
    target: &mut [u8],
    target_n: usize,
    target_b: usize,
    budget: u64,
) -> u64
    ensures { Gives (move_outcome n b source.now target_n target_b target.old budget) result target.new }
{
    packing::packed(moving::move_to(source, n, b, target, target_n, target_b, budget))
}

#[unsafe(no_mangle)]
pub extern "C" fn qbx_salvage(image: &[u8], n: usize, b: usize, text: &mut [u8]) -> u64
    ensures { Prints (salvage_outcome n b image.now text.old) result text.new }
{
    packing::packed_print(salvaging::salvage(image, n, b, text))
}

#[unsafe(no_mangle)]
pub extern "C" fn qbx_rebuild(
    source: &[u8],
    n: usize,
    b: usize,
    target: &mut [u8],
    target_n: usize,
    target_b: usize,
    budget: u64,
) -> u64
    ensures { Gives (rebuild_outcome n b source.now target_n target_b target.old budget) result target.new }
{
    packing::packed(rebuilding::rebuild(source, n, b, target, target_n, target_b, budget))
}

#[unsafe(no_mangle)]
pub extern "C" fn qbx_share_put(
    image: &mut [u8],
    n: usize,
    b: usize,
    shares: &[u32],
    tenant: u32,
    block: u16,
    contents: &[u8],
) -> u64
    ensures { Serves (share_outcome n b shares.now image.old tenant (puts block contents.now)) result image.new }
{
    request::number_of(sharing::put(image, n, b, shares, tenant, BlockNumber(block), contents))
}

#[unsafe(no_mangle)]
pub extern "C" fn qbx_share_delete(
    image: &mut [u8],
    n: usize,
    b: usize,
    shares: &[u32],
    tenant: u32,
    block: u16,
) -> u64
    ensures { Serves (share_outcome n b shares.now image.old tenant (deletes block)) result image.new }
{
    request::number_of(sharing::delete(image, n, b, shares, tenant, BlockNumber(block)))
}

#[unsafe(no_mangle)]
pub extern "C" fn qbx_share_read(
    image: &[u8],
    n: usize,
    b: usize,
    shares: &[u32],
    tenant: u32,
    block: u16,
    contents: &mut [u8],
) -> u64
    ensures { Prints (gave_in (share_outcome n b shares.now image.now tenant (reads block (length contents.old))) contents.old) result contents.new }
{
    packing::packed_print(sharing::read(image, n, b, shares, tenant, BlockNumber(block), contents))
}

#[unsafe(no_mangle)]
pub extern "C" fn qbx_settings_read(image: &[u8], partitions: usize, layout: &[u8], item: u8) -> u64
    ensures { result ≡ packed_spot (settings.read_outcome partitions layout.now image.now item) }
{
    partition_packing::packed_spot(partition_store::read(image, partitions, layout, item))
}

#[unsafe(no_mangle)]
pub extern "C" fn qbx_settings_write(
    image: &mut [u8],
    partitions: usize,
    layout: &[u8],
    item: u8,
    contents: &[u8],
    budget: u64,
) -> u64
    ensures { Gives (settings.write_outcome partitions layout.now image.old item contents.now budget) result image.new }
{
    partition_packing::packed_write(partition_store::write(
        image, partitions, layout, item, contents, budget,
    ))
}
