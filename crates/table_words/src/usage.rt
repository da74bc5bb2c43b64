// Words for usages: 0 for free memory, and else the number of its usage plus 1.
ghost use Rattle.std.specs.Prelude.{◌≡◌};
ghost use Rattle.table_words.specs.Usage.{usage_word, usage_read};

use address_space::{AddressUsage, reserved_number, usage_of};

// The words of usages are 0 to 10.
#[tactic(auto, unfolding(crate::specs::Usage::usage_of_word))]
pub(crate) fn usage_of_word(word: u64) -> Option<AddressUsage>
    ensures { result ≡ usage_read word }
{
    match word {
        0 => Some(AddressUsage::Free),
        1..=10 => Some(usage_of((word - 1) as u32)),
        _ => None,
    }
}

pub(crate) fn usage_word(usage: AddressUsage) -> u64
    ensures { result ≡ usage_word usage }
{
    match usage {
        AddressUsage::Free => 0,
        AddressUsage::Used => 1,
        AddressUsage::Reserved(reserved) => u64::from(reserved_number(reserved)) + 1,
    }
}
