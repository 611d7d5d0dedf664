// Values of types that have a width, over two blocks: payload byte 503 ends the first, and the next is byte 512 of the file.

ghost use Rattle.std.specs.Prelude.{◌≡◌, ℕ, map, ◌+◌, ◌*◌, ◌/◌, ◌≤◌, length};
ghost use Rattle.std.proofs.Common.{refl, arith};
ghost use Rattle.base.specs.Lists.{table};
ghost use Rattle.fields.specs.Payload.{room, field_at};

use super::{Field, bits_of, read, write};
use std::marker::PhantomData;
use std::test::Fail;

// A number in half the bytes of another type.
#[derive(Clone, Copy)]
struct Half<T> {
    number: u64,
    of: PhantomData<T>,
}

impl<T: Field> Field for Half<T> {
    const WIDTH: usize = T::WIDTH / 2;

    ghost WIDTH = { T.WIDTH / 2 };

    ghost value_of = { λ n. record { number = n; of = record {} } };

    ghost number_of = { λ x. x.number };

    ghost values_at = { λ file at n. table (λ k. record { number = field_at (T.WIDTH / 2) file at k; of = record {} }) n };

    ghost numbers_of = { λ xs. map (λ x. x.number) xs };

    ghost narrow = { omega (arith, T.narrow) };

    ghost reads_each = { λ _ _ _. refl };

    ghost writes_each = { λ _. refl };

    fn from_number(n: u64) -> Half<T> {
        Half {
            number: n,
            of: PhantomData,
        }
    }

    fn to_number(self) -> u64 {
        self.number
    }
}

// Makes a half of any type.
fn half_of<T>(number: u64) -> Half<T>
    ensures { result.number ≡ number }
{
    Half {
        number,
        of: PhantomData,
    }
}

// Reads halves of any type. No call of `read_as` can write their width for every type.
fn read_halves<T: Field>(file: &[u8], at: usize, out: &mut [Half<T>]) -> usize
    requires { at + T.WIDTH / 2 * length out.old ≤ room file.now }
    ensures { result ≡ at + T.WIDTH / 2 * length out.old }
{
    read(file, at, out)
}

// What is not as it should be.
#[derive(Debug, Drop)]
struct Wrong(&'static str);

// Passes what is right, and names what is not.
fn ask(right: bool, what: &'static str) -> Result<(), Wrong> {
    if right { Ok(()) } else { Err(Wrong(what)) }
}

#[test]
fn written_in_the_width_of_its_type() -> Result<(), Fail> {
    let mut file = [7u8; 1024];
    let numbers: [u32; 2] = [0x0403_0201, 0x0807_0605];
    let shorts: [u16; 1] = [0x0A09];
    let at = write(&mut file, 502, &numbers);
    let at = write(&mut file, at, &shorts);
    let at = write(&mut file, at, &[-2.0]);
    let halves: [Half<u32>; 1] = [half_of(0x0C0B)];
    let at = write(&mut file, at, &halves);
    ask(at == 522, "where the values end")?;
    ask(
        &file[501..505] == [7, 1, 2, 7].as_slice(),
        "the first block",
    )?;
    ask(
        &file[512..531]
            == [3, 4, 5, 6, 7, 8, 9, 10, 0, 0, 0, 0, 0, 0, 0, 192, 11, 12, 7].as_slice(),
        "the second block",
    )?;
    Ok(())
}

#[test]
fn read_in_the_width_of_its_type() -> Result<(), Fail> {
    let mut file = [0u8; 1024];
    file[502] = 1;
    file[503] = 2;
    file[512] = 3;
    file[513] = 4;
    file[519] = 192;
    let mut numbers = [9u32; 2];
    let mut shorts = [9u16; 2];
    let mut floats = [9.0; 1];
    let mut halves: [Half<u32>; 2] = [half_of(9); 2];
    let mut wider: [Half<f64>; 1] = [half_of(9)];
    ask(
        read(&file, 502, &mut numbers) == 510,
        "where two numbers end",
    )?;
    ask(numbers == [0x0403_0201, 0], "two numbers")?;
    ask(
        read(&file, 502, &mut shorts) == 506,
        "where two short numbers end",
    )?;
    ask(shorts == [0x0201, 0x0403], "two short numbers")?;
    ask(read(&file, 504, &mut floats) == 512, "where a float ends")?;
    ask(bits_of(floats[0]) == 0xC000_0000_0000_0403, "a float")?;
    ask(
        read_halves(&file, 502, &mut halves) == 506,
        "where two halves of a number end",
    )?;
    ask(halves[0].number == 0x0201, "the first half")?;
    ask(halves[1].number == 0x0403, "the second half")?;
    ask(
        read_halves(&file, 502, &mut wider) == 506,
        "where half a float ends",
    )?;
    ask(wider[0].number == 0x0403_0201, "half a float")?;
    Ok(())
}
