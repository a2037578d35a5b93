//! Tests of the calls on terms: fractions and their weights, coefficients inside arguments, terms, products, conditions, terms that
//! meet, and lists of right sides, joined ones too.
#![tactic(auto)]

#[cfg(test)]
mod coefficients;
#[cfg(test)]
mod conditions;
#[cfg(test)]
mod fractions;
#[cfg(test)]
mod joined;
#[cfg(test)]
mod lists;
#[cfg(test)]
mod products;
#[cfg(test)]
mod sides;
#[cfg(test)]
mod terms;
#[cfg(test)]
mod weights;
