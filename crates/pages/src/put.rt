// Words of a program, put one after another: those in use are the program so far.
ghost use Rattle.std.specs.Prelude.{◌+◌, ◌≤◌, [], ◌∷◌, ◌++◌, length, replicate};
ghost use Rattle.shelf.specs.SliceVecs.{items, NowHolds};
ghost use Rattle.pages.specs.Room.{HasRoom};

use shelf::slice_vec::SliceVec;

// One word.
pub(crate) fn put(program: &mut SliceVec<'_, u16>, word: u16)
    requires { HasRoom 1 program.old }
    ensures { NowHolds program.old program.new (items program.old ++ word ∷ []) }
{
    program.push(word).unwrap();
}

// Two words.
pub(crate) fn put_two(program: &mut SliceVec<'_, u16>, first: u16, second: u16)
    requires { HasRoom 2 program.old }
    ensures { NowHolds program.old program.new (items program.old ++ first ∷ second ∷ []) }
{
    put(program, first);
    put(program, second);
}

// So many words of 0: a push for each, as the library has none of so many copies.
pub(crate) fn put_zeros(program: &mut SliceVec<'_, u16>, count: u16)
    requires { HasRoom count program.old }
    ensures { NowHolds program.old program.new (items program.old ++ replicate count 0) }
{
    for _done in 0..count {
        put(program, 0);
    }
}

// A word for each letter of a quoted part, and then 0.
pub(crate) fn put_text(program: &mut SliceVec<'_, u16>, quoted: &[u8])
    requires { HasRoom (length quoted.now + 1) program.old }
    ensures { NowHolds program.old program.new (items program.old ++ (quoted.now ++ 0 ∷ [])) }
{
    for letter in quoted {
        put(program, u16::from(*letter));
    }
    put(program, 0);
}
