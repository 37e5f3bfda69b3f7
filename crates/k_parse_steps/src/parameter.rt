//! Parameters of a function (C17 6.7.6.3), token by token, from behind the opening parenthesis.

use crate::expression::Reading;
use crate::stars::Stars;
use crate::turn::Turn;
use k_num::{Box, Seq};
use k_tree::{Param, Params};

/// Where the reading of parameters stands.
#[derive(Drop)]
pub enum ParameterStage {
    /// Before a parameter.
    Starts,
    /// In the specifiers and stars of a parameter.
    Typed { param: Param, stars: Stars },
    /// Behind the name of a parameter, or behind a dimension.
    Named { param: Param },
    /// In a dimension.
    Size { param: Param, reading: Box<Reading> },
}

/// The parameters so far, and where their reading stands.
#[derive(Drop)]
pub struct Parameters {
    pub list: Seq<Param>,
    pub stage: ParameterStage,
}

/// What a token does among parameters. They are done with the closing parenthesis.
pub type Parametric = Turn<Parameters, Params>;
