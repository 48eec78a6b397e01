//! The kinds of lines that scripts are made of.

/// A kind of lines. In its texts `@i` stands for the number of the round, from 1 on, and `@n` for the same in
/// eight hexadecimal digits; `@d`, `@m` and `@r` for the numbers of all rounds from the last on, from the middle
/// on, and mixed, and `@s` for one more than the last of these; `@l` for the lane that the only client's next
/// request goes to, where each is accepted; and `@u` for its number upstream, where each was answered before
/// the next is taken.
#[derive(Clone, Copy)]
pub struct Kind {
    pub name: &'static str,
    /// What stands before all rounds, behind the number of lanes.
    pub first: &'static str,
    /// What stands before them, once for each.
    pub before: &'static str,
    pub round: &'static str,
}

pub const KINDS: [Kind; 43] = [
    Kind {
        name: "comments",
        first: "",
        before: "",
        round: "# a comment\n",
    },
    Kind {
        name: "empty lines",
        first: "",
        before: "",
        round: "\n",
    },
    Kind {
        name: "limits",
        first: "",
        before: "",
        round: "limits 100 10 20 10000\n",
    },
    Kind {
        name: "client open",
        first: "limits 65535 1024 1 1000000\n",
        before: "",
        round: "client open\n",
    },
    Kind {
        name: "client tx",
        first: "limits 65535 1024 1 1000000\n",
        before: "",
        round: "client tx\n",
    },
    Kind {
        name: "client rx",
        first: "limits 65535 1024 1 1000000\n",
        before: "",
        round: "client rx\n",
    },
    Kind {
        name: "client trx",
        first: "limits 65535 1024 1 1000000\n",
        before: "",
        round: "client trx\n",
    },
    Kind {
        name: "client, refused",
        first: "limits 100 10 20 1000\n",
        before: "",
        round: "client rx\n",
    },
    Kind {
        name: "route, of one client",
        first: "client rx\n",
        before: "",
        round: "route 1 @i\n",
    },
    Kind {
        name: "route, of a client each",
        first: "limits 65535 1024 1 1000000\n",
        before: "client rx\n",
        round: "route @i @i\n",
    },
    Kind {
        name: "route, prefixes of prefixes",
        first: "limits 65535 1024 1 1000000\n",
        before: "client rx\n",
        round: "route @i 123456789\n",
    },
    Kind {
        name: "in, enquire_link",
        first: "client trx\n",
        before: "",
        round: "in 1 000000100000001500000000@n\n",
    },
    Kind {
        name: "in, many PDUs in a line",
        first: "client trx\nin 1 ",
        before: "",
        round: "000000100000001500000000@n",
    },
    Kind {
        name: "in, an octet in a line",
        first: "client trx\n",
        before: "",
        round: "in 1 00\nin 1 00\nin 1 00\nin 1 10\nin 1 00\nin 1 00\nin 1 00\nin 1 15\nin 1 00\nin 1 00\nin 1 00\nin 1 00\nin 1 00\nin 1 00\nin 1 00\nin 1 01\n",
    },
    Kind {
        name: "in, a long PDU an octet in a line",
        first: "client trx\nin 1 0000ffff000000150000000000000001\n",
        before: "",
        round: "in 1 00\n# a comment\n",
    },
    Kind {
        name: "in, a client each",
        first: "limits 65535 1024 1 1000000\n",
        before: "client trx\n",
        round: "in @i 000000100000001500000000@n\n",
    },
    Kind {
        name: "in, accepted",
        first: "limits 65535 1024 256 1000000\n",
        before: "client trx\n",
        round: "in @i 000000220000000400000000@n000000000000310000000000000000000000\n",
    },
    Kind {
        name: "in, refused",
        first: "client trx\n",
        before: "",
        round: "in 1 000000220000000400000000@n000000000000310000000000000000000000\n",
    },
    Kind {
        name: "take, empty",
        first: "",
        before: "",
        round: "take @l\n",
    },
    Kind {
        name: "take, of a client each",
        first: "limits 65535 1024 256 1000000\n",
        before: "client trx\nin @i 000000220000000400000000@n000000000000310000000000000000000000\n",
        round: "take 0\n",
    },
    Kind {
        name: "back, enquire_link",
        first: "",
        before: "",
        round: "back @l 000000100000001500000000@n\n",
    },
    Kind {
        name: "back, many PDUs in a line",
        first: "back 0 ",
        before: "",
        round: "000000100000001500000000@n",
    },
    Kind {
        name: "back, an octet in a line",
        first: "",
        before: "",
        round: "back 0 00\nback 0 00\nback 0 00\nback 0 10\nback 0 00\nback 0 00\nback 0 00\nback 0 15\nback 0 00\nback 0 00\nback 0 00\nback 0 00\nback 0 00\nback 0 00\nback 0 00\nback 0 01\n",
    },
    Kind {
        name: "back, a long PDU an octet in a line",
        first: "back 0 0000ffff000000150000000000000001\n",
        before: "",
        round: "back 0 00\n# a comment\n",
    },
    Kind {
        name: "back, unknown",
        first: "",
        before: "",
        round: "back @l 000000128000000400000000@u3100\n",
    },
    Kind {
        name: "back, no prefix",
        first: "",
        before: "",
        round: "back @l 000000250000000500000000@n000000000000343931350000000000000000000000\n",
    },
    Kind {
        name: "back, mailbox full",
        first: "client rx\nroute 1 49\n",
        before: "",
        round: "back @l 000000250000000500000000@n000000000000343931350000000000000000000000\n",
    },
    Kind {
        name: "collect, nothing",
        first: "client trx\n",
        before: "",
        round: "collect 1\n",
    },
    Kind {
        name: "collect, of a client each",
        first: "limits 65535 1024 1 1000000\n",
        before: "client trx\n",
        round: "collect @i\n",
    },
    Kind {
        name: "a request there and back",
        first: "limits 65535 1024 256 1000000\nclient trx\n",
        before: "",
        round: "in 1 000000220000000400000000@n000000000000310000000000000000000000\ntake @l\nback @l 000000128000000400000000@u3100\ncollect 1\n",
    },
    Kind {
        name: "a message there and back",
        first: "client trx\nroute 1 49\n",
        before: "",
        round: "back @l 000000250000000500000000@n000000000000343931350000000000000000000000\ncollect 1\nin 1 000000118000000500000000@n00\n",
    },
    Kind {
        name: "history",
        first: "client trx\n",
        before: "",
        round: "history @l\n",
    },
    Kind {
        name: "turn",
        first: "client trx\n",
        before: "",
        round: "turn @l\n",
    },
    Kind {
        name: "lose and bind",
        first: "limits 100 10 20 1000000\n",
        before: "",
        round: "lose @l\nbind @l\n",
    },
    Kind {
        name: "moment",
        first: "",
        before: "",
        round: "moment @i\n",
    },
    Kind {
        name: "expire, nothing",
        first: "",
        before: "",
        round: "expire @l 1\n",
    },
    Kind {
        name: "expire, one each",
        first: "limits 65535 1024 256 1000000\nclient trx\n",
        before: "",
        round: "in 1 000000220000000400000000@n000000000000310000000000000000000000\ntake @l\nexpire @l 0\ncollect 1\n",
    },
    Kind {
        name: "leave, oldest first",
        first: "limits 65535 1024 1 1000000\n",
        before: "client rx\n",
        round: "in @i 00000010000000060000000000000001\n",
    },
    Kind {
        name: "leave, newest first",
        first: "limits 65535 1024 1 1000000\n",
        before: "client rx\n",
        round: "in @d 00000010000000060000000000000001\n",
    },
    Kind {
        name: "leave, middle first",
        first: "limits 65535 1024 1 1000000\n",
        before: "client rx\n",
        round: "in @m 00000010000000060000000000000001\n",
    },
    Kind {
        name: "leave, mixed",
        first: "limits 65535 1024 1 1000000\n",
        before: "client rx\n",
        round: "in @r 00000010000000060000000000000001\n",
    },
    Kind {
        name: "leave with a prefix, mixed",
        first: "limits 65535 1024 1 1000000\n",
        before: "client rx\nroute @i @i\n",
        round: "in @r 00000010000000060000000000000001\n",
    },
    Kind {
        name: "a mixture",
        first: "limits 65535 1024 256 1000000\nclient trx\n",
        before: "client rx\nroute @i @i\n",
        round: "in 1 000000220000000400000000@n000000000000310000000000000000000000\ntake @l\nback @l 000000128000000400000000@u3100\ncollect 1\nmoment @i\nexpire @l 9\nback @l 000000250000000500000000@n000000000000343931350000000000000000000000\nin @s 00000010000000060000000000000001\nturn @l\n",
    },
];
