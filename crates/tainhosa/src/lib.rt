// The C interface of the library. A C caller passes a slice as a pointer and a length. Every answer is 0 or a refusal's number;
// a buffer of another length than documented is refusal 1, and nothing changes.
#![tactic(auto)]

ghost use Rattle.std.specs.Prelude.{◌≡◌, [], ◌∷◌, length};
ghost use Rattle.numbers.specs.GivenBack.{refusal_of, answer_by};
ghost use Rattle.flash.specs.Buffers.{flash};
ghost use Rattle.tainhosa.specs.Digest.{after_digest, sha256_answer};
ghost use Rattle.c_headers.specs.Rows.{values_from};
ghost use Rattle.tainhosa.specs.Headers.{after_header, laid_out, read_answer, check_answer, firmware_answer, after_write, write_answer};
ghost use Rattle.tainhosa.specs.Headers.{read_sealed_answer, write_sealed_answer};
ghost use Rattle.tainhosa.specs.Releases.{sheet_read, stated_from, make_answer};
ghost use Rattle.tainhosa.specs.Walking.{after_tag, tag_answer};
ghost use Rattle.tainhosa.specs.Loading.{after_call, power_up_answer, arm_answer, confirm_answer, mend_answer};
ghost use Rattle.tainhosa.specs.Loading.{after_counted, counted_power_up_answer, counted_arm_answer};

use header_reader::Header;
use numbers::Numbered;
use release_values::Stated;

// How many numbers and bytes a header's values are.
const HEADER_NUMBERS: usize = 6;

const HEADER_BYTES: usize = 128;

const DIGEST_BYTES: usize = 32;

// How many numbers and bytes a release sheet's values are.
const SHEET_NUMBERS: usize = 5;

const SHEET_BYTES: usize = 96;

// The rows of the other calls.
const WRITE_NUMBERS: usize = 1;

const TAG_NUMBERS: usize = 6;

const POWER_UP_NUMBERS: usize = 6;

const COMMAND_NUMBERS: usize = 1;

const MEND_NUMBERS: usize = 3;

const COUNTED_NUMBERS: usize = 7;

const COUNTED_COMMAND_NUMBERS: usize = 2;

// A length outside the rules.
const WRONG_LENGTH: u32 = 1;

// The SHA-256 digest of the message, into the 32 bytes of digest.
#[unsafe(no_mangle)]
pub extern "C" fn tainhosa_sha256(message: &[u8], digest: &mut [u8]) -> u32
    ensures { after_digest result digest.new ≡ sha256_answer message.now digest.old }
{
    if digest.len() != DIGEST_BYTES {
        return WRONG_LENGTH;
    }
    digest.copy_from_slice(&digest_sha256::digest(message));
    0
}

// What a reader says, into the caller's buffers: a header's values, or the place of a refusal beside blank values.
fn give<E: Numbered + Copy>(numbers: &mut [u64], bytes: &mut [u8], read: Result<Header, E>) -> u32
    ensures { after_header result numbers.new bytes.new
        ≡ laid_out (answer_by E.says read) numbers.old bytes.old }
{
    if numbers.len() != HEADER_NUMBERS || bytes.len() != HEADER_BYTES {
        return WRONG_LENGTH;
    }
    // Not `refused_by`, which would hold the header on the stack once more.
    match read {
        Ok(v) => {
            c_headers::put_header(numbers, bytes, 0, v);
            0
        }
        Err(refusal) => {
            let refused = refusal.refused();
            c_headers::put_header(numbers, bytes, refused.place as u64, Header::blank());
            refused.number
        }
    }
}

// Reads the header in the first 256 bytes of the input.
#[unsafe(no_mangle)]
pub extern "C" fn tainhosa_read_header(input: &[u8], numbers: &mut [u64], bytes: &mut [u8]) -> u32
    ensures { after_header result numbers.new bytes.new
        ≡ read_answer input.now numbers.old bytes.old }
{
    give(numbers, bytes, header_reader::read_header(input))
}

// Reads the header in the first 256 bytes of the input by the sealed profile.
#[unsafe(no_mangle)]
pub extern "C" fn tainhosa_read_sealed(input: &[u8], numbers: &mut [u64], bytes: &mut [u8]) -> u32
    ensures { after_header result numbers.new bytes.new
        ≡ read_sealed_answer input.now numbers.old bytes.old }
{
    give(numbers, bytes, header_sealed::read_sealed(input))
}

// Checks an image that lies by itself: the lent bytes stand for the firmware sectors.
#[unsafe(no_mangle)]
pub extern "C" fn tainhosa_check_firmware(
    firmware: &[u8],
    numbers: &mut [u64],
    bytes: &mut [u8],
) -> u32
    ensures { after_header result numbers.new bytes.new
        ≡ firmware_answer firmware.now numbers.old bytes.old }
{
    give(numbers, bytes, image::check_firmware(firmware))
}

// Checks the image of a partition: it is the one that its firmware sectors hold.
#[unsafe(no_mangle)]
pub extern "C" fn tainhosa_check_image(
    sectors: usize,
    size: usize,
    partition: &[u8],
    numbers: &mut [u64],
    bytes: &mut [u8],
) -> u32
    ensures { after_header result numbers.new bytes.new
        ≡ check_answer sectors size partition.now numbers.old bytes.old }
{
    give(numbers, bytes, image::check_image(sectors, size, partition))
}

// Tells what a writer says in a caller's row of one number: the place of a refusal, or 0. The answer is its number, or 0.
fn tell<E: Numbered + Copy>(place: &mut [u64], written: Result<(), E>) -> u32
    requires { length place.old ≡ 1 }
    ensures number { result ≡ (refusal_of (answer_by E.says written)).number }
    ensures place { place.new ≡ (refusal_of (answer_by E.says written)).place ∷ [] }
{
    let refused = numbers::refused_by(written);
    place[0] = refused.place as u64;
    refused.number
}

// Writes a header into the first 256 bytes of the output. The bytes are the digest, the signature and the hint; the row takes the
// place of a refusal.
#[unsafe(no_mangle)]
pub extern "C" fn tainhosa_write_header(
    out: &mut [u8],
    size: u32,
    version: u32,
    timestamp: u64,
    auth_type: u16,
    has_hint: bool,
    bytes: &[u8],
    place: &mut [u64],
) -> u32
    ensures { after_write result out.new place.new
        ≡ write_answer out.old (values_from size version timestamp auth_type has_hint bytes.now)
        bytes.now place.old }
{
    if bytes.len() != HEADER_BYTES {
        return WRONG_LENGTH;
    }
    if place.len() != WRITE_NUMBERS {
        return WRONG_LENGTH;
    }
    let v = c_headers::header_from(size, version, timestamp, auth_type, has_hint, bytes);
    tell(place, header_writer::write_header(out, v))
}

// Writes a sealed header into the first 256 bytes of the output. The bytes and the row are those of `tainhosa_write_header`.
#[unsafe(no_mangle)]
pub extern "C" fn tainhosa_write_sealed(
    out: &mut [u8],
    size: u32,
    version: u32,
    timestamp: u64,
    auth_type: u16,
    has_hint: bool,
    bytes: &[u8],
    place: &mut [u64],
) -> u32
    ensures { after_write result out.new place.new
        ≡ write_sealed_answer out.old (values_from size version timestamp auth_type has_hint bytes.now)
        bytes.now place.old }
{
    if bytes.len() != HEADER_BYTES {
        return WRONG_LENGTH;
    }
    if place.len() != WRITE_NUMBERS {
        return WRONG_LENGTH;
    }
    let v = c_headers::header_from(size, version, timestamp, auth_type, has_hint, bytes);
    tell(place, header_sealed::write_sealed(out, v))
}

// Reads a release sheet.
#[unsafe(no_mangle)]
pub extern "C" fn tainhosa_read_sheet(text: &[u8], numbers: &mut [u64], bytes: &mut [u8]) -> u32
    ensures { after_header result numbers.new bytes.new
        ≡ sheet_read text.now numbers.old bytes.old }
{
    if numbers.len() != SHEET_NUMBERS {
        return WRONG_LENGTH;
    }
    if bytes.len() != SHEET_BYTES {
        return WRONG_LENGTH;
    }
    let read = release_sheet::read_sheet(text);
    let refused = numbers::refused_by(read);
    let v = match read {
        Ok(v) => v,
        Err(_) => Stated::blank(),
    };
    c_release::put_stated(numbers, bytes, refused.place as u64, v);
    refused.number
}

// Makes the header of a firmware in the first 256 bytes of the output: the size is the firmware's, and the digest covers the header before
// its tag and the firmware. The bytes are the signature and
// the hint; the row takes the place of a refusal.
#[unsafe(no_mangle)]
pub extern "C" fn tainhosa_make_header(
    out: &mut [u8],
    firmware: &[u8],
    version: u32,
    timestamp: u64,
    auth_type: u16,
    has_hint: bool,
    bytes: &[u8],
    place: &mut [u64],
) -> u32
    ensures { after_write result out.new place.new
        ≡ make_answer out.old firmware.now (stated_from version timestamp auth_type has_hint bytes.now)
        bytes.now place.old }
{
    if bytes.len() != SHEET_BYTES {
        return WRONG_LENGTH;
    }
    if place.len() != WRITE_NUMBERS {
        return WRONG_LENGTH;
    }
    let signature = header_reader::copy_bytes(bytes, 0);
    let hint = header_reader::copy_bytes(bytes, 64);
    let v = Stated {
        version,
        timestamp,
        auth_type,
        signature,
        has_hint,
        hint,
    };
    tell(place, release_header::make_header(out, firmware, v))
}

// The tag from a place of a header on, and the place to go on from.
#[unsafe(no_mangle)]
pub extern "C" fn tainhosa_next_tag(input: &[u8], at: usize, tag: &mut [u64]) -> u32
    ensures { after_tag result tag.new ≡ tag_answer input.now at tag.old }
{
    if tag.len() != TAG_NUMBERS {
        return WRONG_LENGTH;
    }
    let look = header_tags::walk_on(input, at);
    tag.copy_from_slice(&c_headers::tag_row(look.found, look.next as u64));
    c_headers::of_tag(look.found)
}

// A power-up with at most `budget` operations.
#[unsafe(no_mangle)]
pub extern "C" fn tainhosa_power_up(
    sectors: usize,
    size: usize,
    boot: &mut [u8],
    update: &mut [u8],
    swap: &mut [u8],
    budget: u64,
    answer: &mut [u64],
) -> u32
    ensures { after_call result answer.new (flash boot.new update.new swap.new)
        ≡ power_up_answer sectors size (flash boot.old update.old swap.old) budget answer.old }
{
    if answer.len() != POWER_UP_NUMBERS {
        return WRONG_LENGTH;
    }
    let a = power_up::power_up(sectors, size, boot, update, swap, budget);
    let ended = c_power_up::of_outcome(a.outcome);
    let why = numbers::of_reason(a.reason);
    let row = [
        ended.outcome,
        a.count,
        ended.inner,
        ended.place,
        why.number as u64,
        why.place as u64,
    ];
    answer.copy_from_slice(&row);
    ended.number
}

// Arms the update that stands in UPDATE.
#[unsafe(no_mangle)]
pub extern "C" fn tainhosa_arm(
    sectors: usize,
    size: usize,
    boot: &mut [u8],
    update: &mut [u8],
    swap: &mut [u8],
    count: &mut [u64],
) -> u32
    ensures { after_call result count.new (flash boot.new update.new swap.new)
        ≡ arm_answer sectors size (flash boot.old update.old swap.old) count.old }
{
    if count.len() != COMMAND_NUMBERS {
        return WRONG_LENGTH;
    }
    let a = exchange_commands::arm(sectors, size, boot, update, swap);
    count.copy_from_slice(&[c_power_up::count_of(a)]);
    c_power_up::of_command(a)
}

// Keeps the image that runs on test.
#[unsafe(no_mangle)]
pub extern "C" fn tainhosa_confirm(
    sectors: usize,
    size: usize,
    boot: &mut [u8],
    update: &mut [u8],
    swap: &mut [u8],
    count: &mut [u64],
) -> u32
    ensures { after_call result count.new (flash boot.new update.new swap.new)
        ≡ confirm_answer sectors size (flash boot.old update.old swap.old) count.old }
{
    if count.len() != COMMAND_NUMBERS {
        return WRONG_LENGTH;
    }
    let a = exchange_commands::confirm(sectors, size, boot, update, swap);
    count.copy_from_slice(&[c_power_up::count_of(a)]);
    c_power_up::of_command(a)
}

// Mends lost flags in UPDATE: those of the first mark that fits. BOOT and SWAP are only read.
#[unsafe(no_mangle)]
pub extern "C" fn tainhosa_mend<'a>(
    sectors: usize,
    size: usize,
    boot: &'a [u8],
    update: &'a mut [u8],
    swap: &'a [u8],
    numbers: &mut [u64],
) -> u32
    ensures { after_call result numbers.new (flash boot.now update.new swap.now)
        ≡ mend_answer sectors size (flash boot.now update.old swap.now) numbers.old }
{
    if numbers.len() != MEND_NUMBERS {
        return WRONG_LENGTH;
    }
    let a = mend::mend(sectors, size, boot, update, swap);
    numbers.copy_from_slice(&c_mend::row_of(sectors, a));
    c_mend::of_mend(a)
}

// A power-up with at most `budget` operations that counts its erases: the row is BOOT's sectors, UPDATE's, SWAP.
#[unsafe(no_mangle)]
pub extern "C" fn tainhosa_power_up_counted(
    sectors: usize,
    size: usize,
    boot: &mut [u8],
    update: &mut [u8],
    swap: &mut [u8],
    budget: u64,
    row: &mut [u32],
    total: u64,
    answer: &mut [u64],
) -> u32
    ensures { after_counted result answer.new row.new (flash boot.new update.new swap.new)
        ≡ counted_power_up_answer sectors size (flash boot.old update.old swap.old) budget row.old total
        answer.old }
{
    if answer.len() != COUNTED_NUMBERS {
        return WRONG_LENGTH;
    }
    let a = counts_power_up::power_up_counted(
        sectors, size, boot, update, swap, budget, row, total,
    );
    let ended = c_counts::of_counted(a.outcome);
    let why = numbers::of_reason(a.reason);
    let numbers = [
        ended.outcome,
        a.count,
        ended.inner,
        ended.place,
        why.number as u64,
        why.place as u64,
        a.total,
    ];
    answer.copy_from_slice(&numbers);
    ended.number
}

// Arms the update that stands in UPDATE, and counts the erase.
#[unsafe(no_mangle)]
pub extern "C" fn tainhosa_arm_counted(
    sectors: usize,
    size: usize,
    boot: &mut [u8],
    update: &mut [u8],
    swap: &mut [u8],
    row: &mut [u32],
    total: u64,
    answer: &mut [u64],
) -> u32
    ensures { after_counted result answer.new row.new (flash boot.new update.new swap.new)
        ≡ counted_arm_answer sectors size (flash boot.old update.old swap.old) row.old total answer.old }
{
    if answer.len() != COUNTED_COMMAND_NUMBERS {
        return WRONG_LENGTH;
    }
    let a = counts_arm::arm_counted(sectors, size, boot, update, swap, row, total);
    let command = a.answer;
    let numbers = [c_counts::count_of(command), a.total];
    answer.copy_from_slice(&numbers);
    c_counts::of_command(command)
}
