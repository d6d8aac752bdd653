//! The names and the texts of answers.
ghost use Rattle.std.specs.Prelude.{◌≡◌};
ghost use Rattle.hlc_calls.specs.Texts.{answer_name, answer_text};

/// Returns the name of an answer in the header, and the answer in words; or no text for a number that is no answer.
fn words(answer: u32) -> (&'static str, &'static str)
    ensures { (result.0.now ≡ answer_name answer) × (result.1.now ≡ answer_text answer) }
{
    match answer {
        0 => ("HLC_OK", "the call was made"),
        1 => ("HLC_NO_NODE", "no node has this number"),
        2 => ("HLC_READING_TOO_LARGE", "the clock reading is 2^48 or more"),
        3 => (
            "HLC_COUNTER_FULL",
            "the counter of the greatest earlier stamp is full",
        ),
        6 => ("HLC_NOT_NEXT", "the number is not the next one of the node"),
        7 => (
            "HLC_STAMP_NOT_RISING",
            "the stamp is not above that of the last accepted item of the node",
        ),
        8 => ("HLC_ABOVE_FLOOR", "the stamp is above the floor"),
        9 => ("HLC_BELOW_HORIZON", "the stamp is below the horizon"),
        10 => ("HLC_NO_SNAPSHOT", "no open snapshot has this id"),
        11 => ("HLC_TOO_MANY_SNAPSHOTS", "1,024 snapshots are open"),
        12 => ("HLC_BAD_KEY", "the key is empty or longer than 255 bytes"),
        13 => (
            "HLC_VALUE_TOO_LONG",
            "the value is longer than 65,535 bytes",
        ),
        14 => ("HLC_NUMBERS_SPENT", "no number is left"),
        15 => ("HLC_NO_MEMORY", "out of memory"),
        16 => ("HLC_BAD_LINE", "a line of the certificate is bad"),
        22 => (
            "HLC_NOT_SHOWN",
            "the certificate does not show that the rows are the fewest",
        ),
        26 => ("HLC_TOO_MANY_NODES", "1,024 node numbers are assigned"),
        27 => ("HLC_RETIRED", "the node retired"),
        28 => ("HLC_NO_WRITES", "the batch has no writes"),
        29 => ("HLC_TOO_MANY_WRITES", "the batch has more than 256 writes"),
        30 => ("HLC_KEY_TWICE", "the batch writes a key twice"),
        100 => ("HLC_CLOSED", "the store is closed"),
        101 => ("HLC_IS_OPEN", "the store is open already"),
        102 => ("HLC_NO_VALUE", "the key has no value in the snapshot"),
        103 => (
            "HLC_OUTSIDE",
            "the bytes of an entry or a key are not there",
        ),
        104 => ("HLC_MORE", "the next part does not fit"),
        105 => (
            "HLC_NO_SUCH_NODE",
            "no node has issued so many items up to this stamp",
        ),
        106 => ("HLC_BAD_BYTES", "the bytes are not an encoding"),
        107 => (
            "HLC_NO_CHECKPOINT",
            "the content of the bytes is no checkpoint",
        ),
        108 => ("HLC_HAS_BYTES", "the output has bytes already"),
        109 => (
            "HLC_NOT_FEWEST",
            "a row at or below the stamp would be dropped",
        ),
        110 => ("HLC_NO_INCREMENT", "the bytes are no increment"),
        111 => (
            "HLC_NOT_LATER",
            "the increment is not of a later state of the store",
        ),
        112 => ("HLC_CHANGED", "the store changed since the saving began"),
        113 => (
            "HLC_NOT_PARTS",
            "the checkpoints are no two parts of one store",
        ),
        114 => ("HLC_BAD_NODE_COUNT", "the number of nodes is not 1 to 64"),
        115 => ("HLC_ALL_RETIRED", "all nodes have retired"),
        116 => ("HLC_BELOW_FLOOR", "the start is below the floor"),
        117 => ("HLC_AFTER_LAST", "no open snapshot is at this place"),
        118 => ("HLC_NOT_UNDER_WAY", "no restore or saving is under way"),
        119 => (
            "HLC_IS_UNDER_WAY",
            "a restore or saving is under way already",
        ),
        _ => ("", ""),
    }
}

/// Returns the name of an answer in the header, or no text for a number that is no answer.
pub fn name(answer: u32) -> &'static str
    ensures { result.now ≡ answer_name answer }
{
    words(answer).0
}

/// Returns an answer in words, or no text for a number that is no answer.
pub fn text(answer: u32) -> &'static str
    ensures { result.now ≡ answer_text answer }
{
    words(answer).1
}
