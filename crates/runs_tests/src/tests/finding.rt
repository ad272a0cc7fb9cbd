use crate::runs::all_end_so;

// Files, and the matches of a set's slices in them.
const SEARCHES: &str = r"
$ find v.par2 x.bin | g | XXabcdefgh
x.bin 2 e345eacbe656c0e6fd20ed63cb7b062c 0
x.bin 6 e345eacbe656c0e6fd20ed63cb7b062c 1
end
= 0 | x.bin 10

$ find b~.bin v.par2 empty a.bin | g | efgh '' abcd
b\x0a.bin 0 e345eacbe656c0e6fd20ed63cb7b062c 1
a.bin 0 e345eacbe656c0e6fd20ed63cb7b062c 0
end
= 0

# The first match ends at the sixth byte.
$ find --limit 1 v.par2 x.bin | g | XXabcdefgh
x.bin 2 e345eacbe656c0e6fd20ed63cb7b062c 0
cursor 2:617cdc72ba53d94fe713fea2ae18f776:53e12607a1d11cab6b927147969fc38c:0:2:1
= 0 | x.bin 6

$ find --limit 2 v.par2 x.bin | g | XXabcdefgh
x.bin 2 e345eacbe656c0e6fd20ed63cb7b062c 0
x.bin 6 e345eacbe656c0e6fd20ed63cb7b062c 1
cursor 2:617cdc72ba53d94fe713fea2ae18f776:53e12607a1d11cab6b927147969fc38c:0:6:2
= 0 | x.bin 10

$ find --limit=3 v.par2 x.bin | g | XXabcdefgh
x.bin 2 e345eacbe656c0e6fd20ed63cb7b062c 0
x.bin 6 e345eacbe656c0e6fd20ed63cb7b062c 1
end
= 0

$ find -B d v.par2 d/x.bin | g | XXabcdefgh
x.bin 2 e345eacbe656c0e6fd20ed63cb7b062c 0
x.bin 6 e345eacbe656c0e6fd20ed63cb7b062c 1
end
= 0 | d/x.bin 10

$ find -B d/ v.par2 d/x.bin | g | XXabcdefgh
x.bin 2 e345eacbe656c0e6fd20ed63cb7b062c 0
x.bin 6 e345eacbe656c0e6fd20ed63cb7b062c 1
end
= 0

$ find -B e v.par2 d/x.bin | g | XXabcdefgh
d/x.bin 2 e345eacbe656c0e6fd20ed63cb7b062c 0
d/x.bin 6 e345eacbe656c0e6fd20ed63cb7b062c 1
end
= 0
";

#[test]
fn find_lists_where_slices_are_seen(rt: HostRuntime) {
    all_end_so(&rt, SEARCHES);
}

// Searches that go on at a cursor. The fingerprints of lists are as Python's `hashlib` computes
// them.
const RESUMED: &str = r"
$ find --cursor 2:617cdc72ba53d94fe713fea2ae18f776:53e12607a1d11cab6b927147969fc38c:0:2:1 v.par2 x.bin | g | XXabcdefgh
x.bin 6 e345eacbe656c0e6fd20ed63cb7b062c 1
end
= 0 | x.bin 8

# A cursor of the first version is one of every list.
$ find --cursor 617cdc72ba53d94fe713fea2ae18f776:0:2:1 v.par2 x.bin | g | XXabcdefgh
x.bin 6 e345eacbe656c0e6fd20ed63cb7b062c 1
end
= 0 | x.bin 8

$ find --cursor 617cdc72ba53d94fe713fea2ae18f776:4294967295:18446744073709551615:4294967295 v.par2 x.bin | g | XXabcdefgh
end
= 0 | x.bin 0

$ find -B d --cursor 2:617cdc72ba53d94fe713fea2ae18f776:53e12607a1d11cab6b927147969fc38c:0:2:1 v.par2 d/x.bin | g | XXabcdefgh
x.bin 6 e345eacbe656c0e6fd20ed63cb7b062c 1
end
= 0

$ find --cursor 2:617cdc72ba53d94fe713fea2ae18f776:53e12607a1d11cab6b927147969fc38c:0:2:1 v.par2 x.bin | g | XXabcdefghY
parv: cursor of other files
= 3

$ find --cursor 2:00000000000000000000000000000000:53e12607a1d11cab6b927147969fc38c:0:2:1 v.par2 x.bin | g | XXabcdefgh
parv: cursor of another set
= 3
";

#[test]
fn a_search_goes_on_in_its_set_and_its_list_of_files(rt: HostRuntime) {
    all_end_so(&rt, RESUMED);
}

// Short slices, before other bytes. The files of each set have IDs of ones, of twos, and so on.
const TAILS: &str = "\
$ find --tails v.par2 x.bin | ij | XijY
x.bin 1 01010101010101010101010101010101 0
end
= 0

$ find v.par2 x.bin | ij | XijY
end
= 0

$ find --tails v.par2 x.bin | a | Xefabcd
x.bin 1 01010101010101010101010101010101 1
x.bin 3 01010101010101010101010101010101 0
end
= 0 | x.bin 7

# Slices of three lengths at one place are told by their numbers.
$ find --tails v.par2 x.bin | ab_abcd_a | abcd
x.bin 0 01010101010101010101010101010101 0
x.bin 0 02020202020202020202020202020202 0
x.bin 0 03030303030303030303030303030303 0
end
= 0 | x.bin 4

$ find --tails --cursor 2:3fb741695895a858b9947b2d67b83ef3:74b74174a38157c2d4f1dddc8f4ab3da:0:0:1 v.par2 x.bin | ab_abcd_a | abcd
x.bin 0 02020202020202020202020202020202 0
x.bin 0 03030303030303030303030303030303 0
end
= 0
";

#[test]
fn find_sees_short_slices_before_other_bytes(rt: HostRuntime) {
    all_end_so(&rt, TAILS);
}
