//! A text that is read and checked once.

ghost use Rattle.std.specs.Prelude.{◌≡◌, ◌<◌, ◌^◌, IfOk, IfSome, true, length};
ghost use Rattle.sql_model.specs.Kinds.{kind_of_value};
ghost use Rattle.sql_template.specs.Checking.{ArePlacesOf, HaveKinds, IsPrepared};
ghost use Rattle.sql_template.specs.Checking.{IsQuestionOf, IsReadyFor};
ghost use Rattle.sql_template.specs.Templates.{IsOpened};

use crate::limit::fits_limit;
use crate::template::Template;
use ldv_value::{PlaceLists, Value, Values};
use sql_check::{CheckStop, check_places};
use sql_model::{Catalog, Checked};
use std::alloc::{AllocError, Global};

/// A text with its parameters open, the parameters with which it was checked, and the places of its columns.
#[derive(Drop)]
pub struct Prepared {
    template: Template,
    with: Values,
    places: PlaceLists,
}

fn have_kind(left: &Value, right: &Value) -> bool
    ensures { result ≡ true → kind_of_value left.now ≡ kind_of_value right.now }
{
    match (left, right) {
        (Value::Null, Value::Null) => true,
        (Value::Int(_), Value::Int(_)) => true,
        (Value::Text(_), Value::Text(_)) => true,
        _ => false,
    }
}

// Whether parameters have the kinds of others.
fn have_kinds(left: &[Value], right: &[Value]) -> bool
    ensures { result ≡ true → HaveKinds left.now right.now }
{
    match (left, right) {
        ([], []) => true,
        ([a, more @ ..], [b, others @ ..]) => have_kind(a, b) && have_kinds(more, others),
        _ => false,
    }
}

impl Prepared {
    /// Reads and checks a text with parameters; `None` if it isn't a statement or is refused.
    pub fn of(
        alloc: Global,
        text: &str,
        params: &Values,
        catalog: &Catalog,
    ) -> Result<Option<Prepared>, AllocError>
        requires { length params.now < 2 ^ 32 }
        ensures prepared { IfOk result (λ made. IfSome made (IsPrepared catalog.now)) }
        ensures text { IfOk result (λ made. IfSome made (λ prepared. prepared.template.text ≡ text.now)) }
    {
        let read = Template::of(alloc, text, params.len() as u32)?;
        match read {
            None => Ok(None),
            Some(template) => prepared_of(alloc, template, params, catalog),
        }
    }

    /// The statement of a text with parameters, checked, as `parse` and `check` give it; `None` if the
    /// text is another one, the parameters have other kinds, or LIMIT gets no number.
    pub fn checked_for(
        &self,
        alloc: Global,
        text: &str,
        params: &Values,
        catalog: &Catalog,
    ) -> Result<Option<Checked>, AllocError>
        requires { IsPrepared catalog.now self.now }
        ensures { IfOk result (λ found. IfSome found (IsReadyFor text.now params.now catalog.now)) }
    {
        if !self.is_asked_by(text, params) {
            return Ok(None);
        }
        let checked = self.checked_with(alloc, text, params, catalog)?;
        Ok(Some(checked))
    }

    // Whether a question has this text, and parameters that the check treats like the first ones.
    fn is_asked_by(&self, text: &str, params: &Values) -> bool
        ensures { result ≡ true → IsQuestionOf self.now text.now params.now }
    {
        self.template.is_text(text)
            && have_kinds(self.with.items(), params.items())
            && fits_limit(self.template.base(), params)
    }

    fn checked_with(
        &self,
        alloc: Global,
        text: &str,
        params: &Values,
        catalog: &Catalog,
    ) -> Result<Checked, AllocError>
        requires prepared { IsPrepared catalog.now self.now }
        requires question { IsQuestionOf self.now text.now params.now }
        ensures { IfOk result (IsReadyFor text.now params.now catalog.now) }
    {
        let statement = self.template.statement(alloc, params)?;
        Ok(Checked {
            statement,
            places: self.places.copy()?,
        })
    }
}

// Checks a template with parameters.
fn prepared_of(
    alloc: Global,
    template: Template,
    params: &Values,
    catalog: &Catalog,
) -> Result<Option<Prepared>, AllocError>
    requires opened { IsOpened template }
    requires count { length params.now ≡ template.count }
    ensures prepared { IfOk result (λ made. IfSome made (IsPrepared catalog.now)) }
    ensures text { IfOk result (λ made. IfSome made (λ prepared. prepared.template.text ≡ template.text)) }
{
    let found = places_of(alloc, &template, params, catalog)?;
    match found {
        None => Ok(None),
        Some(places) => prepared_with(template, params, places, catalog),
    }
}

fn prepared_with(
    template: Template,
    params: &Values,
    places: PlaceLists,
    catalog: &Catalog,
) -> Result<Option<Prepared>, AllocError>
    requires opened { IsOpened template }
    requires count { length params.now ≡ template.count }
    requires places { ArePlacesOf catalog.now template params.now places }
    ensures prepared { IfOk result (λ made. IfSome made (IsPrepared catalog.now)) }
    ensures text { IfOk result (λ made. IfSome made (λ prepared. prepared.template.text ≡ template.text)) }
{
    let with = params.copy()?;
    Ok(Some(Prepared {
        template,
        with,
        places,
    }))
}

// The places that the check gives a template with parameters, if it accepts it.
fn places_of(
    alloc: Global,
    template: &Template,
    params: &Values,
    catalog: &Catalog,
) -> Result<Option<PlaceLists>, AllocError>
    requires opened { IsOpened template.now }
    requires count { length params.now ≡ template.now.count }
    ensures { IfOk result (λ found. IfSome found (ArePlacesOf catalog.now template.now params.now)) }
{
    if !fits_limit(template.base(), params) {
        return Ok(None);
    }
    let statement = template.statement(alloc, params)?;
    match check_places(alloc, &statement, catalog) {
        Ok(places) => Ok(Some(places)),
        Err(CheckStop::NoMemory) => Err(AllocError),
        Err(_) => Ok(None),
    }
}
