// The words of tags that 000 knows.

#[derive(Clone, Copy)]
pub enum Word {
    Schema,
    SimpleType,
    ComplexType,
    Element,
    Restriction,
    Facet(FacetWord),
    Sequence,
    Choice,
    SimpleContent,
    Extension,
    Any,
    Attribute,
    Other,
}

// The words of facets.
#[derive(Clone, Copy)]
pub enum FacetWord {
    Enumeration,
    Pattern,
    MinLength,
    MaxLength,
    MinInclusive,
    MaxInclusive,
    TotalDigits,
    FractionDigits,
}
