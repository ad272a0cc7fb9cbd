use crate::runs::all_end_so;

// Packets, and the set that they describe or the cause why there is none.
const SETS: &str = r"
$ set v.par2 | g
set 617cdc72ba53d94fe713fea2ae18f776 size 4 slices 2
file e345eacbe656c0e6fd20ed63cb7b062c 8 2 yes g.bin
others 0
have 0
aside v.par2 340 1
= 0 | none 0

$ set v.par2 w.par2 | g g
set 617cdc72ba53d94fe713fea2ae18f776 size 4 slices 2
file e345eacbe656c0e6fd20ed63cb7b062c 8 2 yes g.bin
others 0
have 0
aside v.par2 340 1
aside w.par2 340 1
= 0

$ set p.par2 | g_without_description
parv: no usable set: no description of e345eacbe656c0e6fd20ed63cb7b062c
= 4

$ set --set 00000000000000000000000000000000 v.par2 | g
parv: no usable set: no main
= 4

$ set p.par2 | no_files
set 48bb7051aaabc4ed4e39bd40390991a1 size 4 slices 0
others 0
have 0
= 0

$ set p.par2 | of_length_131072
set 2b5d19a47ee4561a2c85b51d7f6d65c4 size 4 slices 32768
file 01010101010101010101010101010101 131072 32768 no n
others 0
have 0
= 0

$ set p.par2 | of_length_131073
parv: no usable set: too many slices
= 4

# IDs are compared by their last byte first.
$ set p.par2 | one_name
parv: no usable set: name twice 01000000000000000000000000000002
= 4

$ set p.par2 | greatest_lengths
parv: no usable set: too many slices
= 4

$ set p.par2 | many_packets
set 0bbc1be07c3c8cdcafa6da4fb0539235 size 4 slices 0
file e345eacbe656c0e6fd20ed63cb7b062c 0 0 no ../g\x0a.bin
others 2
have 2
creator a\x0ab\\
aside p.par2 340 7
= 0

$ set v.par2 | main_of_zeros_then_g
set 617cdc72ba53d94fe713fea2ae18f776 size 4 slices 2
file e345eacbe656c0e6fd20ed63cb7b062c 8 2 yes g.bin
others 0
have 0
aside v.par2 416 1
= 0
";

#[test]
fn set_shows_the_set_or_why_there_is_none(rt: HostRuntime) {
    all_end_so(&rt, SETS);
}
