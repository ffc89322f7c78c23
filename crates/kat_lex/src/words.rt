//! The words that type files, scripts and design files fix, by their codes: the bytes of a word, padded at
//! the end with zero bytes to 15.
ghost use Rattle.std.specs.Prelude.{◌≡◌, codes};
ghost use Rattle.kat_num.specs.Names.{code_of};
ghost use Rattle.kat_lex.specs.Words.{is_reserved};

// Words that name nothing.
pub const TYPE: u128 = 0x74797065 << 88;

pub const STATE: u128 = 0x7374617465 << 80;

pub const TABLE: u128 = 0x7461626c65 << 80;

pub const OP: u128 = 0x6f70 << 104;

pub const RANK: u128 = 0x72616e6b << 88;

pub const QUERY: u128 = 0x7175657279 << 80;

pub const IF: u128 = 0x6966 << 104;

pub const THEN: u128 = 0x7468656e << 88;

pub const ELSE: u128 = 0x656c7365 << 88;

pub const OR: u128 = 0x6f72 << 104;

pub const AND: u128 = 0x616e64 << 96;

pub const NOT: u128 = 0x6e6f74 << 96;

pub const MAX: u128 = 0x6d6178 << 96;

pub const MIN: u128 = 0x6d696e << 96;

pub const TRUE: u128 = 0x74727565 << 88;

pub const FALSE: u128 = 0x66616c7365 << 80;

pub const BOOL: u128 = 0x626f6f6c << 88;

pub const INT: u128 = 0x696e74 << 96;

pub const NAT: u128 = 0x6e6174 << 96;

pub const NAME: u128 = 0x6e616d65 << 88;

pub const TIME: u128 = 0x74696d65 << 88;

pub const REPLICA: u128 = 0x7265706c696361 << 64;

pub const AT: u128 = 0x6174 << 104;

// A word that names nothing in a type file of format 2 alone.
pub const CLEAR: u128 = 0x636c656172 << 80;

// Words with which lines of scripts begin. They may be names too.
pub const REPLICAS: u128 = 0x7265706c69636173 << 56;

pub const DO: u128 = 0x646f << 104;

pub const SHIP: u128 = 0x73686970 << 88;

pub const DELIVER: u128 = 0x64656c69766572 << 64;

pub const ASK: u128 = 0x61736b << 96;

pub const SHOW: u128 = 0x73686f77 << 88;

// Names of operations and queries of the designs that are built in.
pub const ADD: u128 = 0x616464 << 96;

pub const GET: u128 = 0x676574 << 96;

/// Whether the word names nothing, in type files, scripts and design files.
#[inline(always)]
pub fn is_reserved(word: u128) -> bool
    ensures { result ≡ is_reserved word }
{
    match word {
        TYPE | STATE | TABLE | OP | RANK | QUERY => true,
        IF | THEN | ELSE | OR | AND | NOT | MAX | MIN => true,
        TRUE | FALSE | BOOL | INT | NAT | NAME | TIME | REPLICA | AT => true,
        _ => false,
    }
}

/// Each word has the code of its text.
pub fn words_have_their_codes()
    ensures items { (TYPE ≡ code_of (codes "type")) × (STATE ≡ code_of (codes "state")) × (TABLE ≡ code_of (codes "table"))
        × (OP ≡ code_of (codes "op")) × (RANK ≡ code_of (codes "rank")) × (QUERY ≡ code_of (codes "query")) }
    ensures operators { (IF ≡ code_of (codes "if")) × (THEN ≡ code_of (codes "then")) × (ELSE ≡ code_of (codes "else"))
        × (OR ≡ code_of (codes "or")) × (AND ≡ code_of (codes "and")) × (NOT ≡ code_of (codes "not"))
        × (MAX ≡ code_of (codes "max")) × (MIN ≡ code_of (codes "min")) }
    ensures constants { (TRUE ≡ code_of (codes "true")) × (FALSE ≡ code_of (codes "false")) }
    ensures sorts { (BOOL ≡ code_of (codes "bool")) × (INT ≡ code_of (codes "int")) × (NAT ≡ code_of (codes "nat"))
        × (NAME ≡ code_of (codes "name")) }
    ensures operations { (TIME ≡ code_of (codes "time")) × (REPLICA ≡ code_of (codes "replica")) × (AT ≡ code_of (codes "at")) }
    ensures second { CLEAR ≡ code_of (codes "clear") }
    ensures lines { (REPLICAS ≡ code_of (codes "replicas")) × (DO ≡ code_of (codes "do")) × (SHIP ≡ code_of (codes "ship"))
        × (DELIVER ≡ code_of (codes "deliver")) × (ASK ≡ code_of (codes "ask")) × (SHOW ≡ code_of (codes "show")) }
    ensures designs { (ADD ≡ code_of (codes "add")) × (GET ≡ code_of (codes "get")) }
{}
