// A file of lines of numbers, read, whatever a line of it says.
ghost use Rattle.std.specs.Prelude.{ℕ, ◌*◌, ◌^◌, ◌≡◌, List, [], ◌<◌, ◌≤◌, length, Ok, None};
ghost use Rattle.std.specs.Mem.{type_size};
ghost use Rattle.qbx_share_file.specs.AnyFile.{LineSaid, file_says, listing, over};
ghost use Rattle.qbx_share_file.specs.Steps.{Kept};

// That a line says something else than it should.
#[derive(Clone, Copy)]
pub struct OddLine;

// The number of the first line that says something else, from 1.
#[derive(Clone, Copy)]
pub struct WrongLine(pub usize);

// Numbers behind those that are listed, as far as there is room for them.
fn keep<T: Copy>(list: &mut [T], count: usize, numbers: &[T]) -> usize
    requires { count ≤ length list.old }
    ensures { Kept numbers.now count list.old result list.new }
{
    let n = numbers.len().min(list.len() - count);
    list[count..count + n].copy_from_slice(&numbers[..n]);
    count + n
}

// What the lines of a file say: so many numbers each, or nothing.
pub trait Lines<const N: usize> {
    type Number: Copy;

    ghost says: { List ℕ → LineSaid Self.Number };

    fn read_line(line: &[u8]) -> Result<Option<[Self::Number; N]>, OddLine>
        ensures { result ≡ says line.now };

    ghost quiet: { says [] ≡ Ok None };
}

// The numbers that a file's text lists, in a lent slice; those that it does not hold are left out.
pub fn read_lines<const N: usize, L: Lines<N>>(
    text: &[u8],
    list: &mut [L::Number],
) -> Result<usize, WrongLine>
    requires { N * type_size L.Number.row < 2 ^ 63 }
    ensures { (result ≡ listing (length list.old) (file_says L.says text.now)) × (list.new ≡ over (file_says L.says text.now).numbers list.old) }
{
    let mut at = 0;
    let mut number = 1;
    let mut count = 0;
    while at < text.len() {
        let end = byte_search::find(text, at, text.len(), b'\n');
        let Ok(line) = L::read_line(&text[at..end]) else {
            return Err(WrongLine(number));
        };
        if let Some(numbers) = line {
            count = keep(list, count, &numbers);
        }
        at = end + 1;
        number += 1;
    }
    Ok(count)
}
