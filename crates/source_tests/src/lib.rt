// Tests of the kinds of cost and of the cost sources. Nobody uses it.
#![tactic(auto)]

#[cfg(test)]
mod kinds;
#[cfg(test)]
mod replies;
