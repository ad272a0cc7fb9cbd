use crate::runs::all_end_so;

// Sets, and how much of each is there.
const VERDICTS: &str = r"
$ verify v.par2 g.bin | g | abcdefgh
set 617cdc72ba53d94fe713fea2ae18f776 size 4 slices 2
complete g.bin
need 0 have 0
result complete
= 0

$ verify v.par2 a.bin | a_and_b | abcd
set bfbb8cc347c88c9b3dd072ec0e2f6a1d size 4 slices 3
complete a.bin
missing b.bin 1/2
need 1 have 0
result impossible
= 2

$ verify v.par2 | no_files
set 48bb7051aaabc4ed4e39bd40390991a1 size 4 slices 0
need 0 have 0
result complete
= 0

$ verify v.par2 g.bin h.bin | g | abcdefgX abcdefgh
set 617cdc72ba53d94fe713fea2ae18f776 size 4 slices 2
renamed g.bin from h.bin
need 0 have 0
result possible
= 1

$ verify v.par2 b.bin | a_without_sums | abcdef
set 2b5d19a47ee4561a2c85b51d7f6d65c4 size 4 slices 2
renamed a.bin from b.bin
need 0 have 0
result possible
= 1

$ verify v.par2 b.bin | a | abcdef
set 2b5d19a47ee4561a2c85b51d7f6d65c4 size 4 slices 2
renamed a.bin from b.bin
need 0 have 0
result possible
= 1

$ verify v.par2 a.bin | a_with_a_slice_twice | abcd
set 2b5d19a47ee4561a2c85b51d7f6d65c4 size 4 slices 2
damaged a.bin 1/2
need 1 have 1
result possible
= 1 | a.bin 4

$ verify -q v.par2 a.bin | a_with_a_slice_twice | abcd
need 1 have 1
result possible
= 1 | a.bin 4

$ verify -q -q v.par2 a.bin | a_with_a_slice_twice | abcd
= 1 | a.bin 4

$ verify v.par2 a.bin | a | abcd
set 2b5d19a47ee4561a2c85b51d7f6d65c4 size 4 slices 2
damaged a.bin 1/2
need 1 have 0
result impossible
= 2 | a.bin 4

$ verify -q v.par2 a.bin | a | abcd
need 1 have 0
result impossible
= 2 | a.bin 4

$ verify -q -q v.par2 a.bin | a | abcd
= 2 | a.bin 4

$ verify v.par2 | z
set 2b5d19a47ee4561a2c85b51d7f6d65c4 size 4 slices 0
missing z.bin 0/0
need 0 have 0
result possible
= 1

$ verify v.par2 g.bin | g_without_sums | abcdefgX
set 617cdc72ba53d94fe713fea2ae18f776 size 4 slices 2
damaged g.bin 0/2
need 2 have 0
result impossible
= 2

$ verify v.par2 g.bin | g_described_twice | abcdefgh
set 617cdc72ba53d94fe713fea2ae18f776 size 4 slices 2
damaged g.bin 0/2
need 2 have 0
result impossible
= 2

$ verify e.par2 | empty
parv: no usable set: no main
= 4

# A file is searched a second time for a short slice before other bytes.
$ verify --tails v.par2 x.bin | a | Xefabcd
set 2b5d19a47ee4561a2c85b51d7f6d65c4 size 4 slices 2
missing a.bin 2/2
need 0 have 0
result possible
= 1 | x.bin 7
";

#[test]
fn verify_tells_what_of_a_set_is_there(rt: HostRuntime) {
    all_end_so(&rt, VERDICTS);
}
