//! Answers as the texts of their files.

/// The item is sold at 3. It brings 3 in one of two profiles, and 2 in the other.
pub(crate) const ONE_BUYER_ANSWER: &str =
    "answer,1,auction,optimal\nvalue,5,2\ninterim,1\nodds,0,1\npays,0,3\nmass,0,1,0,1\nmass,1,0,0,0\ncut,1\ncut,2\nbound,1\nrow,2,0,1\nrow,3,0,1\nrow,5,0,1\nend\n";

/// The item is sold at 3, and brings that in one of two profiles.
pub(crate) const POSTED_PRICE_ANSWER: &str =
    "answer,1,general,optimal\nvalue,3,2\ntable,1\nlottery,low,1,0\nlottery,high,0,1\npay,low,0\npay,high,3\nbound,2\nrow,1,0,1\nrow,2,0,3\nrow,3,0,1\nrow,5,0,6\nend\n";

/// The price is above the buyer's value.
pub(crate) const PRICE_ABOVE_VALUE: &str =
    "answer,1,general,table\ntable,1\nlottery,low,1,0\nlottery,high,0,1\npay,low,0\npay,high,4\nend\n";

/// The one outcome.
pub(crate) const ONE_TYPE_TABLE: &str = "answer,1,general,table\ntable,1\nlottery,t,1\nend\n";
