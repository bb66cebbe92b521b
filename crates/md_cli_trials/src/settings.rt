//! Settings as the texts of their files.

/// One agent of one type, and one outcome.
pub(crate) const ONE_TYPE: &str =
    "format = \"mechanism-setting\"\nversion = 1\nkind = \"general\"\ntruth = \"dominant\"\nrational = \"none\"\npayments = false\noutcomes = [\"only\"]\n[[agent]]\nname = \"a\"\ntypes = [\"t\"]\nweights = [1]\nutility = [[0]]\n";

/// A seller, and one buyer whose value is 1 or 3.
pub(crate) const POSTED_PRICE: &str =
    "format = \"mechanism-setting\"\nversion = 1\nkind = \"general\"\ntruth = \"dominant\"\nrational = \"ex-post\"\npayments = true\noutcomes = [\"keep\", \"sell\"]\n[objective]\nrevenue = 1\n[[agent]]\nname = \"buyer\"\ntypes = [\"low\", \"high\"]\nweights = [1, 1]\nutility = [[0, 1], [0, 3]]\n";

/// Two voters, each of whom likes one of two outcomes.
pub(crate) const VOTE: &str =
    "format = \"mechanism-setting\"\nversion = 1\nkind = \"general\"\ntruth = \"dominant\"\nrational = \"none\"\npayments = false\noutcomes = [\"a\", \"b\"]\n[[agent]]\nname = \"first\"\ntypes = [\"l\", \"r\"]\nweights = [1, 1]\nutility = [[1, 0], [0, 1]]\n[[agent]]\nname = \"second\"\ntypes = [\"l\", \"r\"]\nweights = [1, 1]\nutility = [[1, 0], [0, 1]]\n";

/// One buyer whose value is 1 or 3, of an item that is worth 2 where it is kept, as a general setting.
pub(crate) const ONE_BUYER_SALE: &str =
    "format = \"mechanism-setting\"\nversion = 1\nkind = \"general\"\ntruth = \"bayes\"\nrational = \"interim\"\npayments = true\noutcomes = [\"keep\", \"sell\"]\n[objective]\nrevenue = 1\nvalue = [2, 0]\n[[agent]]\nname = \"buyer\"\ntypes = [\"low\", \"high\"]\nweights = [1, 1]\nutility = [[0, 1], [0, 3]]\n";

/// One agent that has 1 outside, and gets 0 at the one outcome.
pub(crate) const OUT_OF_REACH: &str =
    "format = \"mechanism-setting\"\nversion = 1\nkind = \"general\"\ntruth = \"dominant\"\nrational = \"ex-post\"\npayments = false\noutcomes = [\"only\"]\n[[agent]]\nname = \"a\"\ntypes = [\"t\"]\nweights = [1]\noutside = [1]\nutility = [[0]]\n";

/// The designer would like to be paid, and nothing bounds what it takes.
pub(crate) const TAKING: &str =
    "format = \"mechanism-setting\"\nversion = 1\nkind = \"general\"\ntruth = \"dominant\"\nrational = \"none\"\npayments = true\noutcomes = [\"only\"]\n[objective]\nrevenue = 1\n[[agent]]\nname = \"a\"\ntypes = [\"t\"]\nweights = [1]\nutility = [[0]]\n";

/// Two bidders with the values 1 and 2.
pub(crate) const TWO_BIDDERS: &str =
    "format = \"mechanism-setting\"\nversion = 1\nkind = \"auction\"\nbidders = 2\nvalues = [1, 2]\nweights = [1, 1]\nrevenue = 1\nwelfare = 0\nkeep = 0\n";

/// Three bidders with the values 1, 2 and 3.
pub(crate) const THREE_BIDDERS: &str =
    "format = \"mechanism-setting\"\nversion = 1\nkind = \"auction\"\nbidders = 3\nvalues = [1, 2, 3]\nweights = [1, 1, 1]\nrevenue = 1\nwelfare = 0\nkeep = 0\n";

/// The item is worth 2 or 3 to the weak bidder, and 4 or 6 to the strong one.
pub(crate) const STRONG_AND_WEAK: &str =
    "format = \"mechanism-setting\"\nversion = 1\nkind = \"general\"\ntruth = \"bayes\"\nrational = \"interim\"\npayments = true\noutcomes = [\"keep\", \"weak\", \"strong\"]\n[objective]\nrevenue = 1\n[[agent]]\nname = \"weak\"\ntypes = [\"v2\", \"v3\"]\nweights = [1, 1]\nutility = [[0, 2, 0], [0, 3, 0]]\n[[agent]]\nname = \"strong\"\ntypes = [\"v4\", \"v6\"]\nweights = [1, 1]\nutility = [[0, 0, 4], [0, 0, 6]]\n";

/// One bidder with the value 1 or 3. The item is worth 2 where it is kept.
pub(crate) const ONE_BUYER: &str =
    "format = \"mechanism-setting\"\nversion = 1\nkind = \"auction\"\nbidders = 1\nvalues = [1, 3]\nweights = [1, 1]\nkeep = 2\n";
