// SPDX-License-Identifier: MPL-2.0
// No code: the three demands (docs/PROMISES.md), the numbered examples and the requests of document 02, stated over the definitions that the public
// calls' contracts cite.

#![tactic(auto)]
