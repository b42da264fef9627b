//! What stands between the objects of an array of JSON, and how the arrays read back.

ghost use Rattle.std.specs.Prelude.{◌≡◌, ◌+◌, ◌≤◌, ◌++◌};
ghost use Rattle.arrayvec.specs.ArrayString.{array_string_len};
ghost use Rattle.serde_json.specs.Written.{comma_if};
ghost use Rattle.tp_texts.specs.Json.{DeltaReadsBack, RunsReadBack, UsagesReadBack};

use crate::lines::Lines;

/// Adds a comma where another object stands before.
pub fn put_comma(lines: &mut Lines, is_later: bool)
    requires { array_string_len lines.old + 1 ≤ 4096 }
    ensures text { lines.new.bytes ≡ lines.old.bytes ++ comma_if is_later }
    ensures short { array_string_len lines.new ≤ array_string_len lines.old + 1 }
{
    if is_later {
        lines.push_str(",");
    }
}

/// The arrays read back as what was listed.
pub fn texts_read_back()
    ensures runs { RunsReadBack }
    ensures delta { DeltaReadsBack }
    ensures usages { UsagesReadBack }
{}
