// The numbers of refusals, but 20, which the programs alone give; 0 is no refusal. They stand as numbers and not as an enum: the rules of the form
// bring theirs as numbers, `refuse` answers to any of them, and C is given them.

// The file ends before the field is whole.
pub const SHORT: u8 = 1;

// Fixed bytes, blanks or zeros are not so, or A3 is none of the four.
pub const NOT_FIXED: u8 = 2;

// A byte of a digit field is no digit.
pub const NO_DIGIT: u8 = 3;

// A byte of a text is no permitted sign.
pub const NO_SIGN: u8 = 4;

// The first field after A or a C is neither E's length after a C, nor a length of C.
pub const NO_LENGTH: u8 = 5;

// No further C may begin: 9,999,999 have been read.
pub const NO_MORE_PAYMENTS: u8 = 6;

// C5 takes the sum of account numbers above 17 digits.
pub const ACCOUNTS_OVER: u8 = 7;

// C4 takes the sum of bank codes above 17 digits.
pub const BANK_CODES_OVER: u8 = 8;

// C12 takes the sum of cents above 13 digits, or no further C may begin because the sum is at its top.
pub const CENTS_OVER: u8 = 9;

// A7 or A11b names no day.
pub const NO_DATE: u8 = 10;

// Another named condition of a field does not hold.
pub const CONDITION: u8 = 11;

// C7a is no key of this kind of file.
pub const NO_KEY: u8 = 12;

// A mark breaks the rules of marks.
pub const NO_MARK: u8 = 13;

// A figure of E is not the counted one.
pub const NOT_COUNTED: u8 = 14;

// Bytes follow E.
pub const SURPLUS: u8 = 15;

// The input is accepted, but a lent column or output is too short; or, called from C, the result is.
pub const NO_ROOM: u8 = 16;

// A line of a listing has not its form.
pub const NO_LINE: u8 = 17;

// A listing ends with no line of A or of a payment.
pub const ENDS_EARLY: u8 = 18;

// The file is accepted, but it has no such payment, or the payment no such part.
pub const NO_SUCH: u8 = 19;

// C7b is no supplement of its key.
pub const NO_SUPPLEMENT: u8 = 21;

// A11b lies before the day of creation.
pub const TOO_EARLY: u8 = 22;

// A11b lies more than 15 days after the day of creation.
pub const TOO_LATE: u8 = 23;
