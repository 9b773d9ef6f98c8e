// The three control totals: account numbers, bank codes and cents never meet in one addition, so each has an adding function of its own: a rule of
// the project.
#![tactic(auto)]

ghost use Rattle.std.specs.Prelude.{◌≡◌};
ghost use Rattle.sums.specs.Sums.{accounts_added, bank_codes_added, cents_added};

// The highest sum of account numbers, or of bank codes: 17 digits.
const MOST_OF_17: u64 = 99_999_999_999_999_999;

// The highest sum of cents: 13 digits.
pub const MOST_CENTS: u64 = 9_999_999_999_999;

#[derive(Clone, Copy)]
pub struct AccountSum(pub u64);

#[derive(Clone, Copy)]
pub struct BankCodeSum(pub u64);

#[derive(Clone, Copy)]
pub struct CentSum(pub u64);

// What payments come to. Their count stands beside and not in it: a payment's readers take the sums alone and give back new ones, and who counts
// them is told the two apart, as in E.
#[derive(Clone, Copy)]
pub struct Sums {
    pub accounts: AccountSum,
    pub banks: BankCodeSum,
    pub cents: CentSum,
}

pub const NO_SUMS: Sums = Sums {
    accounts: AccountSum(0),
    banks: BankCodeSum(0),
    cents: CentSum(0),
};

impl AccountSum {
    // The sum with the account number v added; none where it would have more than 17 digits.
    #[tactic(auto, unfolding(crate::specs::Sums::accounts_added))]
    pub fn add(self, v: u64) -> Option<AccountSum>
        ensures { result ≡ accounts_added self.0 v }
    {
        let sum = self.0.checked_add(v)?;
        (sum <= MOST_OF_17).then_some(AccountSum(sum))
    }
}

impl BankCodeSum {
    // The sum with the bank code v added; none where it would have more than 17 digits.
    #[tactic(auto, unfolding(crate::specs::Sums::bank_codes_added))]
    pub fn add(self, v: u64) -> Option<BankCodeSum>
        ensures { result ≡ bank_codes_added self.0 v }
    {
        let sum = self.0.checked_add(v)?;
        (sum <= MOST_OF_17).then_some(BankCodeSum(sum))
    }
}

impl CentSum {
    // The sum with the cents v added; none where it would have more than 13 digits.
    #[tactic(auto, unfolding(crate::specs::Sums::cents_added))]
    pub fn add(self, v: u64) -> Option<CentSum>
        ensures { result ≡ cents_added self.0 v }
    {
        let sum = self.0.checked_add(v)?;
        (sum <= MOST_CENTS).then_some(CentSum(sum))
    }
}
