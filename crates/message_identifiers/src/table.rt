//! The table of message identifiers.

ghost use Rattle.std.specs.Prelude.{◌≡◌, map};
ghost use Rattle.message_identifiers.specs.Table.{row_for, table};

use crate::identifier::Identifier;
use crate::usage::Usage;

/// The identifiers of public warnings, by their numbers (TS 23.041, 9.4.1.2.2).
const TABLE: [Identifier; 35] = [
    Identifier {
        number: 4352,
        name: "earthquake",
        usage: Usage::Emergency,
    },
    Identifier {
        number: 4353,
        name: "tsunami",
        usage: Usage::Emergency,
    },
    Identifier {
        number: 4354,
        name: "earthquake-and-tsunami",
        usage: Usage::Emergency,
    },
    Identifier {
        number: 4355,
        name: "etws-test",
        usage: Usage::Emergency,
    },
    Identifier {
        number: 4356,
        name: "etws-other",
        usage: Usage::Emergency,
    },
    Identifier {
        number: 4370,
        name: "alert-1",
        usage: Usage::Text,
    },
    Identifier {
        number: 4371,
        name: "alert-2",
        usage: Usage::Text,
    },
    Identifier {
        number: 4372,
        name: "extreme-immediate-likely",
        usage: Usage::Text,
    },
    Identifier {
        number: 4373,
        name: "alert-3",
        usage: Usage::Text,
    },
    Identifier {
        number: 4374,
        name: "extreme-expected-likely",
        usage: Usage::Text,
    },
    Identifier {
        number: 4375,
        name: "severe-immediate-observed",
        usage: Usage::Text,
    },
    Identifier {
        number: 4376,
        name: "severe-immediate-likely",
        usage: Usage::Text,
    },
    Identifier {
        number: 4377,
        name: "severe-expected-observed",
        usage: Usage::Text,
    },
    Identifier {
        number: 4378,
        name: "severe-expected-likely",
        usage: Usage::Text,
    },
    Identifier {
        number: 4379,
        name: "amber",
        usage: Usage::Text,
    },
    Identifier {
        number: 4380,
        name: "test",
        usage: Usage::Text,
    },
    Identifier {
        number: 4381,
        name: "exercise",
        usage: Usage::Text,
    },
    Identifier {
        number: 4382,
        name: "operator",
        usage: Usage::Text,
    },
    Identifier {
        number: 4383,
        name: "alert-1-language",
        usage: Usage::Text,
    },
    Identifier {
        number: 4384,
        name: "alert-2-language",
        usage: Usage::Text,
    },
    Identifier {
        number: 4385,
        name: "extreme-immediate-likely-language",
        usage: Usage::Text,
    },
    Identifier {
        number: 4386,
        name: "alert-3-language",
        usage: Usage::Text,
    },
    Identifier {
        number: 4387,
        name: "extreme-expected-likely-language",
        usage: Usage::Text,
    },
    Identifier {
        number: 4388,
        name: "severe-immediate-observed-language",
        usage: Usage::Text,
    },
    Identifier {
        number: 4389,
        name: "severe-immediate-likely-language",
        usage: Usage::Text,
    },
    Identifier {
        number: 4390,
        name: "severe-expected-observed-language",
        usage: Usage::Text,
    },
    Identifier {
        number: 4391,
        name: "severe-expected-likely-language",
        usage: Usage::Text,
    },
    Identifier {
        number: 4392,
        name: "amber-language",
        usage: Usage::Text,
    },
    Identifier {
        number: 4393,
        name: "test-language",
        usage: Usage::Text,
    },
    Identifier {
        number: 4394,
        name: "exercise-language",
        usage: Usage::Text,
    },
    Identifier {
        number: 4395,
        name: "operator-language",
        usage: Usage::Text,
    },
    Identifier {
        number: 4396,
        name: "public-safety",
        usage: Usage::Text,
    },
    Identifier {
        number: 4397,
        name: "public-safety-language",
        usage: Usage::Text,
    },
    Identifier {
        number: 4398,
        name: "local-test",
        usage: Usage::Text,
    },
    Identifier {
        number: 4399,
        name: "local-test-language",
        usage: Usage::Text,
    },
];

/// The rows of the table.
pub(crate) fn rows() -> &'static [Identifier]
    ensures { map row_for result.now ≡ table }
{
    &TABLE
}
