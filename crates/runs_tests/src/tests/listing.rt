use crate::runs::all_end_so;

// Packets and the bytes between them; several files; a wanted set.
const LISTINGS: &str = r"
$ packets e.par2 | empty
packets 0
= 0

$ packets p.par2 | creator
p.par2 0 64 creator 00000000000000000000000000000000
packets 1
= 0

$ packets p.par2 | odd_length
packets 0
= 0

$ packets p.par2 | changed_type
packets 0
= 0

$ packets p.par2 | packet_in_packet
p.par2 3 132 recvslic 00000000000000000000000000000000
p.par2 71 64 creator 00000000000000000000000000000000
packets 2
= 0

$ packets p.par2 | overlapping
p.par2 0 128 creator 00000000000000000000000000000000
p.par2 64 68 creator 00000000000000000000000000000000
packets 2
= 0

$ packets p.par2 | behind_magic
p.par2 8 64 creator 00000000000000000000000000000000
packets 1
= 0

$ packets p.par2 | behind_greatest_length
p.par2 64 64 creator 00000000000000000000000000000000
packets 1
= 0

$ packets p.par2 | behind_wrong_hash
p.par2 64 64 creator 00000000000000000000000000000000
packets 1
= 0

$ packets v.par2 | g
v.par2 0 92 main 617cdc72ba53d94fe713fea2ae18f776
v.par2 92 128 filedesc 617cdc72ba53d94fe713fea2ae18f776
v.par2 220 120 ifsc 617cdc72ba53d94fe713fea2ae18f776
v.par2 340 76 recvslic 617cdc72ba53d94fe713fea2ae18f776
packets 4
= 0 | none 0

$ packets b\~.par2 x.bin a.PAR2 | comment creator
b\\\x0a.par2 0 68 unknown 617cdc72ba53d94fe713fea2ae18f776
a.PAR2 0 64 creator 00000000000000000000000000000000
packets 2
= 0

$ packets --set 00000000000000000000000000000000 v.par2 w.par2 | g creator
w.par2 0 64 creator 00000000000000000000000000000000
packets 1
= 0

$ packets --set 00000000000000000000000000000000 v.par2 | g
packets 0
= 0
";

// Packets that begin far into a file.
const FAR: &str = "\
$ packets p.par2 | x*65533+creator
p.par2 65533 64 creator 00000000000000000000000000000000
packets 1
= 0

$ packets p.par2 | \0*70000+packet_in_packet
p.par2 70003 132 recvslic 00000000000000000000000000000000
p.par2 70071 64 creator 00000000000000000000000000000000
packets 2
= 0
";

#[test]
fn packets_lists_the_packets_of_packet_files(rt: HostRuntime) {
    all_end_so(&rt, LISTINGS);
    all_end_so(&rt, FAR);
}
